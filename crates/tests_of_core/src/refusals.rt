//! Entries that are refused on the way.
ghost use Rattle.dd_blocks.specs.WellFormed.{IsWellFormed};
ghost use Rattle.dd_core.specs.Cores.{IsCoreOf};

use crate::plans::{TWO_SPACES, plan_of};
use crate::runs::{OF_TWO_SPACES, core_after, first};
use dd_blocks::Plan;
use dd_core::{Core, Entry, Event};
use std::process::Abort;

/// So many entries of the run, and one that isn't legal then: a copy of more than is needed, a task held before its
/// dependency, a task claimed before its copy is current, a region closed with a copy away from home, a block picked without
/// need, a block of another statement, an entry with the line of another statement.
const REFUSED: &[(usize, u32, Event)] = &[
    (
        12,
        10,
        Event::Copy {
            task: 2,
            block: 1,
            source: 1,
            count: 4,
        },
    ),
    (7, 10, Event::Hold { task: 2 }),
    (12, 10, Event::Claim { task: 2, worker: 1 }),
    (15, 10, Event::Close { region: 1 }),
    (3, 5, Event::Pick { space: 1, block: 1 }),
    (3, 6, Event::Ask { space: 1, block: 1 }),
    (3, 5, Event::Ask { space: 2, block: 2 }),
];

/// The entry isn't legal after so many entries.
fn is_refused(rt: &impl Abort, core: &Core, plan: &Plan, entry: Entry, made: usize)
    requires well { IsWellFormed plan.now }
    requires core { IsCoreOf plan.now core.now }
{
    assert!(rt; !core.legal(plan, entry), "after {made} entries");
}

#[test]
fn entries_out_of_place_are_refused(rt: HostRuntime) {
    let plan = plan_of(&rt, rt.alloc(), TWO_SPACES);
    for (made, line, event) in REFUSED {
        let core = core_after(&rt, rt.alloc(), &plan, first(&rt, OF_TWO_SPACES, *made));
        let entry = Entry {
            line: *line,
            event: *event,
        };
        is_refused(&rt, &core, &plan, entry, *made);
    }
}
