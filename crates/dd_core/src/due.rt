//! Which entries the statements ask for next.
ghost use Rattle.std.specs.Prelude.{◌≡◌, ◌↔◌, ◌≤◌, length, take, IsTrue, Some};
ghost use Rattle.dd_blocks.specs.WellFormed.{IsWellFormed};
ghost use Rattle.dd_core.specs.Lines.{with_line};
ghost use Rattle.dd_machine.specs.Owed.{left};
ghost use Rattle.dd_machine.specs.Words.{rows};

use dd_blocks::Plan;
use dd_machine::{Entry, Event};
use dd_owed::{next_entry, one_more};

/// Whether the entries that come next are these events with this line, where so many entries of a row were made.
pub(crate) fn come_next(plan: &Plan, row: u32, made: u32, line: u32, events: &[Event]) -> bool
    requires well { IsWellFormed plan.now }
    requires row { row ≤ rows plan.now }
    ensures { IsTrue result ↔ (take (length events.now) (left plan.now (record { row = row; made = made })) ≡ with_line line events.now) }
{
    let mut at = (row, made);
    for event in events {
        let event = *event;
        if !is_entry(next_entry(plan, at.0, at.1), line, event) {
            return false;
        }
        at = one_more(plan, at.0, at.1);
    }
    true
}

/// Whether there is an entry, of a line and with an event.
fn is_entry(next: Option<Entry>, line: u32, event: Event) -> bool
    ensures { IsTrue result ↔ (next ≡ Some (record { line = line; event = event })) }
{
    match next {
        Some(entry) => entry.line == line && entry.event == event,
        None => false,
    }
}
