//! Works: a task's kernel, run on what was collected for it, and stored.
ghost use Rattle.std.specs.Prelude.{◌≡◌, [], replicate};
ghost use Rattle.dd_blocks.specs.WellFormed.{IsWellFormed};
ghost use Rattle.dd_stamps.specs.Cells.{size_of};
ghost use Rattle.dd_stamps.specs.Works.{IsSameWork};
ghost use Rattle.dd_stamps.specs.declared.work.Stage.TheVariants.{Collecting, Ran};

use crate::copies::check_one_version;
use crate::plans::{OVERLAPPING, plan_of};
use dd_apply::apply;
use dd_blocks::Plan;
use dd_stamps::{Stamped, Work, fresh_fill};
use std::alloc::Global;
use std::process::Abort;

// Where arguments share elements, the later one wins: 1 2 3 and 2 3 4 are swapped, and stored one after the other.
#[test]
fn the_later_argument_wins(rt: HostRuntime) {
    let plan = plan_of(&rt, rt.alloc(), OVERLAPPING);
    let copy = copy_after_the_task(&rt, rt.alloc(), &plan);
    assert_eq!(rt; copy.values(), [2, 1, 2, 3].as_slice());
    check_one_version(&rt, &copy, 1);
}

/// The copy of block 1 once task 1 was run on it, which touches no other block.
pub(crate) fn copy_after_the_task<'p>(rt: &impl Abort, alloc: Global, plan: &'p Plan) -> Stamped<'p>
    requires { IsWellFormed plan.now }
    ensures plan { result.plan ≡ plan.entry }
    ensures block { result.block ≡ 1 }
{
    assert!(rt; !plan.blocks.as_slice().is_empty() && !plan.tasks.as_slice().is_empty());
    let mut copy = fresh_fill(alloc, plan, 1).expect(rt, "memory");
    let mut work = Work::new(alloc, plan, 1, 1, 1, false).expect(rt, "memory");
    collect_all(rt, &mut work, &copy);
    run(&mut work);
    assert!(rt; copy.versions().len() < 9);
    copy.reserve(2 * copy.versions().len()).expect(rt, "memory");
    copy.store_outputs(&work);
    copy
}

// Collects the one block that a first task touches.
fn collect_all<'p>(rt: &impl Abort, work: &mut Work<'p>, copy: &Stamped<'p>)
    requires well { IsWellFormed work.old.plan.now }
    requires first { work.old.task ≡ 1 }
    requires plan { copy.now.plan ≡ work.old.plan }
    requires block { copy.now.block ≡ 1 }
    requires fresh { copy.now.versions.list ≡ replicate (size_of copy.now.plan.now 1) 0 }
    requires stage { work.old.stage ≡ Collecting }
    ensures all { work.new.left.items ≡ [] }
    ensures stage { work.new.stage ≡ Collecting }
    ensures same { IsSameWork work.old work.new }
{
    let [1] = work.left() else {
        panic!(rt; "the task touches other blocks")
    };
    work.collect(copy);
}

// Runs the kernel of a work.
fn run(work: &mut Work<'_>)
    requires well { IsWellFormed work.old.plan.now }
    requires stage { work.old.stage ≡ Collecting }
    requires all { work.old.left.items ≡ [] }
    ensures stage { work.new.stage ≡ Ran }
    ensures same { IsSameWork work.old work.new }
{
    let task = work.plan().task(work.task());
    let mut args = work.begin();
    apply(task.kernel, task.scalar, &mut args);
    work.done(args);
}
