//! The next entry of all rows, and the position behind it.
ghost use Rattle.std.specs.Prelude.{◌≡◌, ◌-◌, ◌+◌, ◌≤◌, IsSome};
ghost use Rattle.dd_blocks.specs.WellFormed.{IsWellFormed};
ghost use Rattle.dd_machine.specs.Owed.{entries_from, left, next_entry, next_row, one_more};
ghost use Rattle.dd_machine.specs.Words.{rows};

use crate::row_events::entry_at;
use dd_blocks::Plan;
use dd_machine::Entry;

/// The entry that comes next where so many entries of a row were made. None comes exactly where none is left.
pub fn next_entry(plan: &Plan, row: u32, made: u32) -> Option<Entry>
    requires well { IsWellFormed plan.now }
    requires row { row ≤ rows plan.now }
    ensures { result ≡ next_entry (left plan.now (record { row = row; made = made })) }
{
    match entry_at(plan, row, made) {
        Some(entry) => Some(entry),
        None => first_below(plan, row),
    }
}

/// The position once the next entry was made: its row, and how many of that row's entries were made. Where none is left, it
/// is behind the last row.
#[tactic(auto, unfolding(dd_machine::specs::Owed::one_more))]
pub fn one_more(plan: &Plan, row: u32, made: u32) -> (u32, u32)
    requires well { IsWellFormed plan.now }
    requires row { row ≤ rows plan.now }
    ensures value { one_more plan.now (record { row = row; made = made }) ≡ record { row = result.0; made = result.1 } }
    ensures within { result.0 ≤ rows plan.now + 1 }
    ensures there { IsSome (next_entry (left plan.now (record { row = row; made = made }))) → result.0 ≤ rows plan.now }
{
    match entry_at(plan, row, made) {
        Some(_) => (row, made + 1),
        None => (row_below(plan, row), 1),
    }
}

/// The first entry of the rows below a row.
fn first_below(plan: &Plan, row: u32) -> Option<Entry>
    requires well { IsWellFormed plan.now }
    requires row { row ≤ rows plan.now }
    ensures { result ≡ next_entry (entries_from plan.now (row + 1) (rows plan.now - row)) }
{
    for above in row..plan.statements.as_slice().len() as u32 {
        if let Some(entry) = entry_at(plan, above + 1, 0) {
            return Some(entry);
        }
    }
    None
}

/// The first row below a row that has entries, or the number behind the last row.
fn row_below(plan: &Plan, row: u32) -> u32
    requires well { IsWellFormed plan.now }
    requires row { row ≤ rows plan.now }
    ensures value { result ≡ next_row plan.now (row + 1) (rows plan.now - row) }
    ensures within { result ≤ rows plan.now + 1 }
    ensures there { IsSome (next_entry (entries_from plan.now (row + 1) (rows plan.now - row))) → result ≤ rows plan.now }
{
    let count = plan.statements.as_slice().len() as u32;
    for above in row..count {
        if entry_at(plan, above + 1, 0).is_some() {
            return above + 1;
        }
    }
    count + 1
}
