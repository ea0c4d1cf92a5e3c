//! Current versions, where they come from, and what a copy lacks.
ghost use Rattle.dd_blocks.specs.WellFormed.{IsWellFormed};
ghost use Rattle.dd_history.specs.Currents.{AreVersions};

use crate::plans::{TWO_SPACES, plan_of};
use dd_blocks::Plan;
use dd_history::Cur;
use dd_spans::{RunMap, Runs};
use std::process::Abort;
use std::test::Fail;

/// A version that was never written.
const BLANK: u32 = u32::MAX;

/// Elements with their current versions and the spaces that have these in the first region.
type Wanted = &'static [(u64, u32, u32)];

/// A is the elements 0 to 3, with the home 1, and B the elements 4 and 5, with the home 2.
const AT_FIRST: Wanted = &[(0, 0, 1), (3, 0, 1), (4, 0, 2), (5, 0, 2)];

const AFTER_THE_FIRST: Wanted = &[(0, 1, 1), (3, 1, 1), (4, 0, 2)];

const AFTER_BOTH: Wanted = &[(0, 1, 1), (3, 1, 1), (4, 2, 2), (5, 2, 2)];

/// So are the current versions of some elements.
fn are_current(rt: &impl Abort, cur: &Cur, plan: &Plan, wanted: Wanted)
    requires well { IsWellFormed plan.now }
    requires versions { AreVersions plan.now cur.now.list }
{
    for (element, version, space) in wanted {
        assert!(rt; *element < cur.len());
        assert_eq!(rt; cur.version(*element), *version, "element {element}");
        assert_eq!(rt; cur.source(plan, 1, *element), *space, "element {element}");
    }
}

/// A task of the Plan is done.
fn finish(rt: &impl Abort, cur: &mut Cur, plan: &Plan, task: u32)
    requires well { IsWellFormed plan.now }
    requires versions { AreVersions plan.now cur.old.list }
    ensures { AreVersions plan.now cur.new.list }
{
    assert!(rt; 1 <= task && task as usize <= plan.tasks.as_slice().len());
    cur.finish(plan, task);
}

#[test]
fn versions_follow_the_tasks_that_are_done(rt: HostRuntime) -> Result<(), Fail> {
    let plan = plan_of(&rt, rt.alloc(), TWO_SPACES);
    let mut cur = Cur::new(rt.alloc(), &plan)?;
    cur.reserve(16)?;
    assert_eq!(rt; cur.len(), 6);
    are_current(&rt, &cur, &plan, AT_FIRST);
    finish(&rt, &mut cur, &plan, 1);
    are_current(&rt, &cur, &plan, AFTER_THE_FIRST);
    finish(&rt, &mut cur, &plan, 2);
    are_current(&rt, &cur, &plan, AFTER_BOTH);
    Ok(())
}

/// The first task wrote all of A in the first space. A copy has that version in its second place alone.
#[test]
fn a_copy_lacks_what_was_written_elsewhere(rt: HostRuntime) -> Result<(), Fail> {
    let plan = plan_of(&rt, rt.alloc(), TWO_SPACES);
    assert_eq!(rt; plan.blocks.as_slice().len(), 2);
    assert_eq!(rt; plan.block(1).size, 4);
    let mut cur = Cur::new(rt.alloc(), &plan)?;
    finish(&rt, &mut cur, &plan, 1);
    let mut held = RunMap::new(rt.alloc(), 4, BLANK)?;
    held.set(1, 1);
    let wanted = Runs::of_run(rt.alloc(), 0, 3)?;
    let lacking = cur.remainder(&plan, 1, 1, &wanted, &held, 1)?;
    assert_eq!(rt; lacking.len(), 2);
    assert_eq!(rt; lacking.next_run(0), Some((0, 1)));
    assert_eq!(rt; lacking.next_run(1), Some((2, 1)));
    let elsewhere = cur.remainder(&plan, 1, 1, &wanted, &held, 2)?;
    assert_eq!(rt; elsewhere.len(), 0);
    Ok(())
}
