//! The entries of a row.
ghost use Rattle.std.specs.Prelude.{◌≡◌, ◌*◌, ◌<◌, ◌≤◌, slice_get, IfSome};
ghost use Rattle.dd_blocks.specs.Limits.{blocks_limit};
ghost use Rattle.dd_blocks.specs.Numbered.{IsNumberIn};
ghost use Rattle.dd_blocks.specs.WellFormed.{IsWellFormed};
ghost use Rattle.dd_machine.specs.Owed.{entries_of, events_of};
ghost use Rattle.dd_machine.specs.Words.{rows, statement};

use crate::events::{free_event, print_event, put_event, region_event, shift_event, sum_event};
use dd_blocks::{Plan, What};
use dd_machine::{Entry, Event};

/// The event at a place of a row, from 0.
fn event_at(plan: &Plan, row: u32, i: u32) -> Option<Event>
    requires well { IsWellFormed plan.now }
    requires row { IsNumberIn plan.now.statements row }
    ensures value { result ≡ slice_get (events_of plan.now row (statement plan.now row).what) i }
    ensures few { IfSome result (λ _. i < 3 * blocks_limit) }
{
    match &plan.statement(row).what {
        What::Put(array) => put_event(plan, row, *array, i),
        What::Print(array) => print_event(plan, row, *array, i),
        What::Sum { array, .. } => sum_event(plan, row, *array, i),
        What::MoveTo { array, space } => shift_event(plan, row, *array, *space, i),
        What::Drop { array, last: true } => free_event(plan, row, *array, i),
        What::Region(region) => region_event(*region, i),
        What::Drop { last: false, .. } | What::Moved | What::Same(_) => None,
    }
}

/// The entry at a place of a row, from 0. Row 0 has none.
#[tactic(auto, unfolding(dd_machine::specs::Owed::entries_of))]
pub(crate) fn entry_at(plan: &Plan, row: u32, i: u32) -> Option<Entry>
    requires well { IsWellFormed plan.now }
    requires row { row ≤ rows plan.now }
    ensures value { result ≡ slice_get (entries_of plan.now row) i }
    ensures few { IfSome result (λ _. i < 3 * blocks_limit) }
{
    if row == 0 {
        return None;
    }
    match event_at(plan, row, i) {
        Some(event) => Some(Entry {
            line: plan.statement(row).line,
            event,
        }),
        None => None,
    }
}
