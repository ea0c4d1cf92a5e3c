//! The places of rows and columns in a view.
ghost use Rattle.std.specs.Prelude.{◌≡◌, ◌≢◌, ◌+◌, ◌<◌, ◌≤◌, ◌^◌};
ghost use Rattle.dd_touch.specs.Strips.{AreKept};

use dd_views::Part;

/// Places one after the other, from 1: those from `low` on and below `high`.
#[derive(Clone, Copy, Debug)]
pub(crate) struct Places {
    pub(crate) low: u64,
    pub(crate) high: u64,
}

/// The places of the rows that a part keeps in at least one of some columns. There are `rows` rows.
pub(crate) fn kept_in(part: Part, cols: Places, rows: u32) -> Places
    requires low { 1 ≤ cols.low }
    requires some { cols.low < cols.high }
    requires small { cols.high ≤ 2 ^ 32 }
    requires square { part ≢ Part.All → cols.high ≤ rows + 1 }
    ensures { AreKept part cols.low cols.high rows result.low result.high }
{
    let end = u64::from(rows) + 1;
    match part {
        Part::All => Places { low: 1, high: end },
        Part::Lower => Places {
            low: cols.low,
            high: end,
        },
        Part::Upper => Places {
            low: 1,
            high: cols.high,
        },
        Part::UnitLower => Places {
            low: cols.low + 1,
            high: end,
        },
        Part::UnitUpper => Places {
            low: 1,
            high: cols.high - 1,
        },
        Part::Diag => cols,
    }
}
