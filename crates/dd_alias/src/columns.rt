//! What a part keeps.
ghost use Rattle.std.specs.Prelude.{◌≡◌, ◌≢◌, ℕ, ◌≤◌, ◌<◌, ◌^◌, ◌↔◌, IsTrue, true};
ghost use Rattle.dd_views.specs.IndexList.{keeps};
ghost use Rattle.dd_alias.specs.Columns.{beyond_of, high_of, low_of};

use crate::interval::{Interval, Ways};
use dd_views::Part;

/// Whether the part is the whole.
pub fn is_whole(part: Part) -> bool
    ensures { IsTrue result ↔ (part ≡ Part.All) }
{
    matches!(part, Part::All)
}

/// The part that keeps at row j and column i what the given one keeps at row i and column j.
pub fn flip(part: Part) -> Part
    ensures all { (result ≡ Part.All) ↔ (part ≡ Part.All) }
    ensures keeps { (i : ℕ) → (j : ℕ) → keeps result i j ≡ keeps part j i }
{
    match part {
        Part::All => Part::All,
        Part::Lower => Part::Upper,
        Part::Upper => Part::Lower,
        Part::UnitLower => Part::UnitUpper,
        Part::UnitUpper => Part::UnitLower,
        Part::Diag => Part::Diag,
    }
}

/// Between which numbers the rows stand that a part keeps, from the first to the last, where the diagonal is at a row,
/// and the next ones are so far up and down from it.
pub fn kept(part: Part, diagonal: u64, ways: Ways, first: u64, last: u64) -> Interval
    requires small { part ≢ Part.All → diagonal < 2 ^ 63 }
    requires up { ways.up ≤ 2 ^ 63 }
    ensures low { result.low ≡ low_of part diagonal ways.up first }
    ensures high { result.high ≡ high_of part diagonal ways.down last }
{
    match part {
        Part::All => Interval {
            low: first,
            high: last,
        },
        Part::Lower | Part::UnitLower => Interval {
            low: diagonal + ways.up,
            high: last,
        },
        Part::Upper | Part::UnitUpper => Interval {
            low: first,
            high: diagonal.saturating_sub(ways.down),
        },
        Part::Diag => Interval {
            low: diagonal + ways.up,
            high: diagonal.saturating_sub(ways.down),
        },
    }
}

/// How far it is from the diagonal to the next row that a part may keep, where the next row or the diagonal itself is so
/// far from it, and the one behind by the gap farther.
pub fn beyond(part: Part, way: u64, gap: u64) -> u64
    ensures { result ≡ beyond_of part way gap }
{
    match part {
        Part::UnitLower | Part::UnitUpper => { if way == 0 { gap } else { way } }
        _ => way,
    }
}
