//! Tasks that are led on to their Claim.
ghost use Rattle.dd_blocks.specs.WellFormed.{IsWellFormed};
ghost use Rattle.dd_core.specs.Cores.{IsCoreOf};

use crate::plans::plan_of;
use crate::runs::{Lines, core_after, make};
use dd_blocks::Plan;
use dd_core::{Core, Entry, Event, TaskState};
use std::process::Abort;

/// Five blocks fit. The sixth spills the first, which the task writes.
const FULL_SPACE: &str = "space m 160
proc p m
array A 1 4 1 4 const 1
array B 1 4 1 4 const 2
array C 1 4 1 4 const 3
array D 1 4 1 4 const 4
array E 1 4 1 4 const 5
array F 1 4 1 4 const 6
region
task copy Out(A) In(B)
end
print A
";

const OF_FULL_SPACE: Lines = &[
    (3, Event::Ask { space: 1, block: 1 }),
    (3, Event::Put { block: 1 }),
    (3, Event::Rest),
    (4, Event::Ask { space: 1, block: 2 }),
    (4, Event::Put { block: 2 }),
    (4, Event::Rest),
    (5, Event::Ask { space: 1, block: 3 }),
    (5, Event::Put { block: 3 }),
    (5, Event::Rest),
    (6, Event::Ask { space: 1, block: 4 }),
    (6, Event::Put { block: 4 }),
    (6, Event::Rest),
    (7, Event::Ask { space: 1, block: 5 }),
    (7, Event::Put { block: 5 }),
    (7, Event::Rest),
    (8, Event::Ask { space: 1, block: 6 }),
    (8, Event::Pick { space: 1, block: 1 }),
    (8, Event::Gone { space: 1, block: 1 }),
    (8, Event::Put { block: 6 }),
    (8, Event::Rest),
    (11, Event::Begin { region: 1 }),
    (11, Event::Hold { task: 1 }),
];

/// The other four leave, the one used last at the end, and the first comes back.
const TO_THE_FULL_SPACE: &[(Event, Option<Event>)] = &[
    (
        Event::Pick { space: 1, block: 3 },
        Some(Event::Gone { space: 1, block: 3 }),
    ),
    (
        Event::Pick { space: 1, block: 4 },
        Some(Event::Gone { space: 1, block: 4 }),
    ),
    (
        Event::Pick { space: 1, block: 5 },
        Some(Event::Gone { space: 1, block: 5 }),
    ),
    (
        Event::Pick { space: 1, block: 6 },
        Some(Event::Gone { space: 1, block: 6 }),
    ),
    (
        Event::Call { space: 1, block: 1 },
        Some(Event::Come { space: 1, block: 1 }),
    ),
];

/// The first block of the first space is spilled, and the second task reads it in the second space.
const SPILLED_SOURCE: &str = "space m 96
space n 4096
proc p m
proc q n
array A 1 4 1 4 const 1
array B 1 4 1 4 const 2
array C 1 4 1 4 zeros
array D 1 4 1 4 zeros
array E 1 4 1 4 zeros
array F 1 4 1 4 zeros
array G 1 4 1 4 zeros
region
task fill 1 Out(B)
task copy Out(D) In(A)
end
print D
";

const OF_SPILLED_SOURCE: Lines = &[
    (5, Event::Ask { space: 1, block: 1 }),
    (5, Event::Put { block: 1 }),
    (5, Event::Rest),
    (6, Event::Ask { space: 2, block: 2 }),
    (6, Event::Put { block: 2 }),
    (6, Event::Rest),
    (7, Event::Ask { space: 1, block: 3 }),
    (7, Event::Put { block: 3 }),
    (7, Event::Rest),
    (8, Event::Ask { space: 2, block: 4 }),
    (8, Event::Put { block: 4 }),
    (8, Event::Rest),
    (9, Event::Ask { space: 1, block: 5 }),
    (9, Event::Put { block: 5 }),
    (9, Event::Rest),
    (10, Event::Ask { space: 2, block: 6 }),
    (10, Event::Put { block: 6 }),
    (10, Event::Rest),
    (11, Event::Ask { space: 1, block: 7 }),
    (11, Event::Pick { space: 1, block: 1 }),
    (11, Event::Gone { space: 1, block: 1 }),
    (11, Event::Put { block: 7 }),
    (11, Event::Rest),
    (15, Event::Begin { region: 1 }),
    (15, Event::Hold { task: 2 }),
];

/// It gets a copy of the block, and the spilled one is lent to it.
const TO_THE_SPILLED_SOURCE: &[(Event, Option<Event>)] = &[
    (Event::Make { task: 2, block: 1 }, None),
    (
        Event::Lend {
            task: 2,
            block: 1,
            source: 1,
        },
        Some(Event::Copy {
            task: 2,
            block: 1,
            source: 1,
            count: 4,
        }),
    ),
];

/// A task is led on by these events, some with one that follows, and then it is claimable.
fn is_led(
    rt: &impl Abort,
    core: &mut Core,
    plan: &Plan,
    task: u32,
    wanted: &[(Event, Option<Event>)],
)
    requires well { IsWellFormed plan.now }
    requires core { IsCoreOf plan.now core.old }
{
    for (event, follower) in wanted {
        assert!(rt; !core.claimable(plan, task));
        assert_eq!(rt; next_of(rt, core, plan, task), Some(*event));
        made(rt, core, plan, *event);
        if let Some(follower) = follower {
            made(rt, core, plan, *follower);
        }
    }
    assert_eq!(rt; next_of(rt, core, plan, task), None);
    assert!(rt; core.claimable(plan, task));
}

/// The event that leads a task on, which has to be Held.
fn next_of(rt: &impl Abort, core: &Core, plan: &Plan, task: u32) -> Option<Event>
    requires well { IsWellFormed plan.now }
    requires core { IsCoreOf plan.now core.now }
{
    match core.task(task) {
        TaskState::Held => core.next_for(plan, task),
        other => panic!(rt; "the task is {other:?}"),
    }
}

/// Makes an event of the statement at work.
fn made(rt: &impl Abort, core: &mut Core, plan: &Plan, event: Event)
    requires well { IsWellFormed plan.now }
    requires core { IsCoreOf plan.now core.old }
    ensures { IsCoreOf plan.now core.new }
{
    let line = core.line(plan).unwrap_or(0);
    make(rt, core, plan, Entry { line, event });
}

#[test]
fn a_full_space_is_cleared_for_a_task(rt: HostRuntime) {
    let plan = plan_of(&rt, rt.alloc(), FULL_SPACE);
    let mut core = core_after(&rt, rt.alloc(), &plan, OF_FULL_SPACE);
    is_led(&rt, &mut core, &plan, 1, TO_THE_FULL_SPACE);
}

#[test]
fn a_spilled_source_is_lent_to_a_task(rt: HostRuntime) {
    let plan = plan_of(&rt, rt.alloc(), SPILLED_SOURCE);
    let mut core = core_after(&rt, rt.alloc(), &plan, OF_SPILLED_SOURCE);
    is_led(&rt, &mut core, &plan, 2, TO_THE_SPILLED_SOURCE);
}
