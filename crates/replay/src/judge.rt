//! Journals judged, entry by entry.
ghost use Rattle.dd_blocks.specs.WellFormed.{IsWellFormed};
ghost use Rattle.dd_core.specs.Cores.{IsCoreOf};

use crate::journal::{event_of, is_entry};
use crate::lines::first_line;
use crate::verdict::Verdict;
use dd_blocks::Plan;
use dd_core::{Core, Entry, Event, is_final};
use std::alloc::{AllocError, Global};

/// The verdict on a journal.
///
/// # Errors
/// Want of memory.
pub fn judge(alloc: Global, plan: &Plan, journal: &[u8]) -> Result<Verdict, AllocError>
    requires { IsWellFormed plan.now }
{
    let mut core = Core::new(alloc, plan)?;
    let mut rest = journal;
    let mut line = 0;
    let mut entries = 0;
    while !rest.is_empty() {
        let (bytes, below) = first_line(rest);
        rest = below;
        line += 1;
        if is_entry(bytes) {
            if !advance(&mut core, plan, event_of(bytes))? {
                return Ok(Verdict::No { line });
            }
            entries += 1;
        }
    }
    Ok(verdict_at_end(&core, plan, entries))
}

/// The verdict on so many entries, all of them legal.
fn verdict_at_end(core: &Core, plan: &Plan, entries: usize) -> Verdict
    requires { IsCoreOf plan.now core.now }
{
    match core.line(plan) {
        Some(_) => Verdict::Short { entries },
        None => Verdict::Yes {
            entries,
            moved: core.moved(),
        },
    }
}

/// Makes an event, where there is one and it is legal, and answers whether it was made. It gets the line of the statement at
/// work, which a journal doesn't say.
fn advance(core: &mut Core, plan: &Plan, event: Option<Event>) -> Result<bool, AllocError>
    requires well { IsWellFormed plan.now }
    requires core { IsCoreOf plan.now core.old }
    ensures core { IsCoreOf plan.now core.new }
{
    let (Some(line), Some(event)) = (core.line(plan), event) else {
        return Ok(false);
    };
    let entry = Entry { line, event };
    if !core.legal(plan, entry) {
        return Ok(false);
    }
    if is_final(event) {
        core.finish(plan, entry);
    } else {
        core.step(plan, entry)?;
    }
    Ok(true)
}
