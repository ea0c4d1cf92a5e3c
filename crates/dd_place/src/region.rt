//! When a region begins.
ghost use Rattle.std.specs.Prelude.{◌≡◌, ◌+◌, ◌-◌, ◌^◌, ◌<◌, ◌≤◌, AllPairs, length};
ghost use Rattle.std.specs.List.{position_or_len};
ghost use Rattle.dd_blocks.specs.declared.statement_row.StatementRow.{StatementRow};
ghost use Rattle.dd_blocks.specs.Homes.{runs_region};
ghost use Rattle.dd_blocks.specs.Lives.{region_run};
ghost use Rattle.dd_place.specs.Premises.{IsBelow};

use dd_blocks::{StatementRow, What};

/// The number of the row that runs a region, or where there is none, of the row that comes next. It goes from the
/// last row up, to the first region that isn't behind.
pub fn row_of_region(rows: &[StatementRow], region: u32) -> u32
    requires few { length rows.now < 2 ^ 32 - 1 }
    requires regions { AllPairs IsBelow rows.now }
    ensures value { result ≡ position_or_len (λ (row : StatementRow). runs_region region row.what) rows.now + 1 }
    ensures within { result ≤ length rows.now + 1 }
{
    let next = rows.len() as u32 + 1;
    for i in (0..rows.len()).rev() {
        let Some(run) = region_run(&rows[i].what) else {
            continue;
        };
        if run == region {
            return i as u32 + 1;
        }
        if run < region {
            return next;
        }
    }
    next
}

/// The region that a statement runs.
pub fn region_run(what: &What) -> Option<u32>
    ensures { result ≡ region_run what.now }
{
    match what {
        What::Region(region) => Some(*region),
        _ => None,
    }
}
