//! Whole runs of a core, entry by entry.
ghost use Rattle.std.specs.Prelude.{◌≤◌, length};
ghost use Rattle.dd_blocks.specs.Limits.{text_limit};
ghost use Rattle.dd_blocks.specs.WellFormed.{IsWellFormed};
ghost use Rattle.dd_core.specs.Cores.{IsCoreOf};

use crate::plans::{THREE_ROWS, TWO_SPACES, plan_of};
use dd_blocks::Plan;
use dd_core::{Core, Entry, Event, is_final};
use std::alloc::Global;
use std::process::Abort;

/// Lines with events.
pub(crate) type Lines = &'static [(u32, Event)];

/// A whole run of the script of two spaces.
pub(crate) const OF_TWO_SPACES: Lines = &[
    (5, Event::Ask { space: 1, block: 1 }),
    (5, Event::Put { block: 1 }),
    (5, Event::Rest),
    (6, Event::Ask { space: 2, block: 2 }),
    (6, Event::Put { block: 2 }),
    (6, Event::Rest),
    (10, Event::Begin { region: 1 }),
    (10, Event::Hold { task: 1 }),
    (10, Event::Claim { task: 1, worker: 1 }),
    (10, Event::Finish { task: 1 }),
    (10, Event::Hold { task: 2 }),
    (10, Event::Make { task: 2, block: 1 }),
    (
        10,
        Event::Copy {
            task: 2,
            block: 1,
            source: 1,
            count: 2,
        },
    ),
    (10, Event::Claim { task: 2, worker: 1 }),
    (10, Event::Finish { task: 2 }),
    (10, Event::Free { space: 2, block: 1 }),
    (10, Event::Close { region: 1 }),
    (12, Event::Ask { space: 2, block: 2 }),
    (12, Event::Rest),
];

/// A whole run of the script of three rows, in which each of the eighteen events stands.
pub(crate) const OF_THREE_ROWS: Lines = &[
    (5, Event::Ask { space: 1, block: 1 }),
    (5, Event::Put { block: 1 }),
    (5, Event::Rest),
    (6, Event::Ask { space: 2, block: 2 }),
    (6, Event::Put { block: 2 }),
    (6, Event::Rest),
    (7, Event::Ask { space: 1, block: 3 }),
    (7, Event::Put { block: 3 }),
    (7, Event::Rest),
    (8, Event::Ask { space: 1, block: 2 }),
    (8, Event::Shift { block: 2, space: 1 }),
    (8, Event::Rest),
    (12, Event::Begin { region: 1 }),
    (12, Event::Hold { task: 1 }),
    (12, Event::Pick { space: 1, block: 1 }),
    (12, Event::Gone { space: 1, block: 1 }),
    (12, Event::Claim { task: 1, worker: 1 }),
    (12, Event::Hold { task: 2 }),
    (12, Event::Make { task: 2, block: 1 }),
    (
        12,
        Event::Lend {
            task: 2,
            block: 1,
            source: 1,
        },
    ),
    (
        12,
        Event::Copy {
            task: 2,
            block: 1,
            source: 1,
            count: 2,
        },
    ),
    (12, Event::Claim { task: 2, worker: 2 }),
    (12, Event::Finish { task: 1 }),
    (12, Event::Finish { task: 2 }),
    (12, Event::Ask { space: 1, block: 1 }),
    (12, Event::Call { space: 1, block: 1 }),
    (12, Event::Come { space: 1, block: 1 }),
    (
        12,
        Event::Back {
            block: 1,
            source: 2,
            count: 2,
        },
    ),
    (12, Event::Rest),
    (12, Event::Free { space: 2, block: 1 }),
    (12, Event::Close { region: 1 }),
    (13, Event::Ask { space: 1, block: 1 }),
    (13, Event::Rest),
];

/// Makes an entry, which has to be legal.
pub(crate) fn make(rt: &impl Abort, core: &mut Core, plan: &Plan, entry: Entry)
    requires well { IsWellFormed plan.now }
    requires core { IsCoreOf plan.now core.old }
    ensures { IsCoreOf plan.now core.new }
{
    assert!(rt; core.legal(plan, entry), "line {}", entry.line);
    if is_final(entry.event) {
        core.finish(plan, entry);
    } else {
        core.step(plan, entry).expect(rt, "memory");
    }
}

/// The core after some entries, each of which has to be legal.
pub(crate) fn core_after(
    rt: &impl Abort,
    alloc: Global,
    plan: &Plan,
    entries: &[(u32, Event)],
) -> Core
    requires { IsWellFormed plan.now }
    ensures { IsCoreOf plan.now result }
{
    let mut core = Core::new(alloc, plan).expect(rt, "memory");
    for (line, event) in entries {
        let entry = Entry {
            line: *line,
            event: *event,
        };
        make(rt, &mut core, plan, entry);
    }
    core
}

/// So many first entries of a run.
pub(crate) fn first(rt: &impl Abort, run: Lines, made: usize) -> Lines {
    assert!(rt; made <= run.len());
    &run[..made]
}

/// No entry is left, and so many elements moved.
fn has_ended(rt: &impl Abort, core: &Core, plan: &Plan, moved: u64)
    requires { IsCoreOf plan.now core.now }
{
    assert_eq!(rt; core.line(plan), None);
    assert_eq!(rt; core.moved(), moved);
}

/// A run of a script is whole, and moves so many elements.
fn is_whole(rt: &impl Abort, alloc: Global, script: &str, run: Lines, moved: u64)
    requires { length script.now ≤ text_limit }
{
    let plan = plan_of(rt, alloc, script);
    let core = core_after(rt, alloc, &plan, run);
    has_ended(rt, &core, &plan, moved);
}

#[test]
fn whole_runs_are_made_entry_by_entry(rt: HostRuntime) {
    is_whole(&rt, rt.alloc(), TWO_SPACES, OF_TWO_SPACES, 2);
    is_whole(&rt, rt.alloc(), THREE_ROWS, OF_THREE_ROWS, 4);
}
