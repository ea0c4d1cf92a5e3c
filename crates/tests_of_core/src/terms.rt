//! What a core tells on the way.
ghost use Rattle.dd_blocks.specs.WellFormed.{IsWellFormed};
ghost use Rattle.dd_core.specs.Cores.{IsCoreOf};

use crate::plans::{THREE_ROWS, TWO_SPACES, plan_of};
use crate::runs::{OF_THREE_ROWS, OF_TWO_SPACES, core_after, first};
use dd_blocks::Plan;
use dd_core::{CopyState, Core, TaskState};
use std::process::Abort;

/// A version that was never written.
const BLANK: u32 = u32::MAX;

/// The line of the next entry, the open region and the pin.
fn is_at(
    rt: &impl Abort,
    core: &Core,
    plan: &Plan,
    line: u32,
    region: Option<u32>,
    pin: Option<(u32, u32)>,
)
    requires { IsCoreOf plan.now core.now }
{
    assert_eq!(rt; core.line(plan), Some(line));
    assert_eq!(rt; core.region(), region);
    assert_eq!(rt; core.pin(), pin);
}

/// Where copies are, by space and block.
fn are_copies(rt: &impl Abort, core: &Core, wanted: &[(u32, u32, Option<CopyState>)]) {
    for (space, block, state) in wanted {
        assert_eq!(rt;
            core.copy(*space, *block),
            *state,
            "block {block} in space {space}"
        );
    }
}

/// Homes of blocks.
fn are_homes(rt: &impl Abort, core: &Core, wanted: &[(u32, u32)]) {
    for (block, home) in wanted {
        assert_eq!(rt; core.home(*block), *home, "block {block}");
    }
}

/// How far tasks are.
fn are_tasks(rt: &impl Abort, core: &Core, wanted: &[(u32, TaskState)]) {
    for (task, state) in wanted {
        assert_eq!(rt; core.task(*task), *state, "task {task}");
    }
}

/// What is in use of spaces or wanted, and what is in use.
fn are_bytes(rt: &impl Abort, core: &Core, plan: &Plan, wanted: &[(u32, u64, u64)])
    requires well { IsWellFormed plan.now }
    requires core { IsCoreOf plan.now core.now }
{
    for (space, load, resident) in wanted {
        assert_eq!(rt; core.load(plan, *space), *load, "load of space {space}");
        assert_eq!(rt; core.resident(plan, *space), *resident, "space {space}");
    }
}

#[test]
fn a_pinned_block_is_told(rt: HostRuntime) {
    let plan = plan_of(&rt, rt.alloc(), TWO_SPACES);
    let core = core_after(&rt, rt.alloc(), &plan, first(&rt, OF_TWO_SPACES, 2));
    is_at(&rt, &core, &plan, 5, None, Some((1, 1)));
    are_copies(&rt, &core, &[(1, 1, Some(CopyState::Here)), (2, 1, None)]);
    are_homes(&rt, &core, &[(1, 1), (2, 2)]);
    are_bytes(&rt, &core, &plan, &[(1, 32, 32), (2, 0, 0)]);
}

/// In the second space stand the 16 bytes of B. The second task, Held, wants the 32 of A beside them, 32 of arguments and 32 of
/// scratch.
#[test]
fn a_held_task_is_told(rt: HostRuntime) {
    let plan = plan_of(&rt, rt.alloc(), TWO_SPACES);
    let core = core_after(&rt, rt.alloc(), &plan, first(&rt, OF_TWO_SPACES, 11));
    is_at(&rt, &core, &plan, 10, Some(1), None);
    are_tasks(&rt, &core, &[(1, TaskState::Done), (2, TaskState::Held)]);
    are_bytes(&rt, &core, &plan, &[(1, 32, 32), (2, 112, 16)]);
}

/// The first task wants 32 bytes in a space of 64 where three blocks take 48, so the first of these left. The second has its home
/// there since it was moved.
#[test]
fn a_spilled_block_is_told(rt: HostRuntime) {
    let plan = plan_of(&rt, rt.alloc(), THREE_ROWS);
    let core = core_after(&rt, rt.alloc(), &plan, first(&rt, OF_THREE_ROWS, 16));
    are_copies(&rt, &core, &[(1, 1, Some(CopyState::Out)), (2, 1, None)]);
    are_homes(&rt, &core, &[(1, 1), (2, 1), (3, 1)]);
    are_bytes(&rt, &core, &plan, &[(1, 64, 32), (2, 0, 0)]);
}

/// It is lent to the second task, whose copy of it is still blank, and takes its 16 bytes in the space of this task beside that
/// copy. The first task runs with 16 bytes of arguments.
#[test]
fn a_lent_block_is_told(rt: HostRuntime) {
    let plan = plan_of(&rt, rt.alloc(), THREE_ROWS);
    let core = core_after(&rt, rt.alloc(), &plan, first(&rt, OF_THREE_ROWS, 20));
    let lent = Some(CopyState::Lent(2));
    are_copies(&rt, &core, &[(1, 1, lent), (2, 1, Some(CopyState::Here))]);
    are_tasks(
        &rt,
        &core,
        &[(1, TaskState::Running(1)), (2, TaskState::Held)],
    );
    are_bytes(&rt, &core, &plan, &[(1, 48, 48), (2, 48, 32)]);
}

/// The version at a place of a copy, which has to be there.
fn version_of(rt: &impl Abort, core: &Core, space: u32, block: u32, place: u64) -> u32 {
    assert!(rt; core.copy(space, block).is_some());
    let versions = core.versions(space, block);
    assert!(rt; place < versions.len());
    versions.get(place)
}

/// So are the versions of the copy of the first block in the second space.
fn are_versions(rt: &impl Abort, core: &Core, wanted: &[u32]) {
    for (place, version) in wanted.iter().enumerate() {
        assert_eq!(rt;
            version_of(rt, core, 2, 1, place as u64),
            *version,
            "place {place}"
        );
    }
}

/// The second task has a blank copy of A, and gets the two elements that it needs.
#[test]
fn versions_of_a_copy_are_told(rt: HostRuntime) {
    let plan = plan_of(&rt, rt.alloc(), TWO_SPACES);
    let core = core_after(&rt, rt.alloc(), &plan, first(&rt, OF_TWO_SPACES, 12));
    are_versions(&rt, &core, &[BLANK, BLANK, BLANK, BLANK]);
    let core = core_after(&rt, rt.alloc(), &plan, first(&rt, OF_TWO_SPACES, 13));
    are_versions(&rt, &core, &[1, 1, BLANK, BLANK]);
}

/// After so many entries of the run of three rows: a task, or 0 for the write-back, a block and a space, with the run of places
/// that are needed from there. None are after the Copy, and after the Back.
const NEEDED: &[(usize, (u32, u32, u32), Option<(u64, u64)>)] = &[
    (19, (2, 1, 1), Some((0, 2))),
    (19, (2, 1, 2), None),
    (20, (2, 1, 1), Some((0, 2))),
    (21, (2, 1, 1), None),
    (27, (0, 1, 2), Some((0, 2))),
    (28, (0, 1, 2), None),
];

/// Of a block that a task needs from a space, this is the first run of places.
fn is_needed(
    rt: &impl Abort,
    core: &Core,
    plan: &Plan,
    asked: (u32, u32, u32),
    wanted: Option<(u64, u64)>,
)
    requires well { IsWellFormed plan.now }
    requires core { IsCoreOf plan.now core.now }
{
    let (task, block, source) = asked;
    assert!(rt; task as usize <= plan.tasks.as_slice().len());
    assert!(rt; 1 <= block && block as usize <= plan.blocks.as_slice().len());
    let needed = core.needed(plan, task, block, source).expect(rt, "memory");
    assert_eq!(rt; needed.next_run(0), wanted);
}

#[test]
fn needed_elements_are_told(rt: HostRuntime) {
    let plan = plan_of(&rt, rt.alloc(), THREE_ROWS);
    for (made, asked, wanted) in NEEDED {
        let core = core_after(&rt, rt.alloc(), &plan, first(&rt, OF_THREE_ROWS, *made));
        is_needed(&rt, &core, &plan, *asked, *wanted);
    }
}
