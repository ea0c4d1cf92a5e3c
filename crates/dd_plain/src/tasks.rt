//! The tasks of a region.
ghost use Rattle.std.specs.Prelude.{◌≡◌};
ghost use Rattle.std.specs.List.Sorted.{IsNonDecreasingBy};
ghost use Rattle.dd_blocks.specs.Lives.{tasks_of};
ghost use Rattle.dd_blocks.specs.declared.task_row.TaskRow.{TaskRow};

use dd_blocks::{Plan, TaskRow};

/// The tasks of a region, which stand one after the other.
pub(crate) fn tasks_of(plan: &Plan, region: u32) -> &[TaskRow]
    requires { IsNonDecreasingBy (λ (t : TaskRow). t.region) plan.now.tasks }
    ensures { result.now ≡ tasks_of plan.now region }
{
    let tasks = plan.tasks.as_slice();
    let first = tasks.partition_point(|task| task.region < region);
    let rest = &tasks[first..];
    let count = rest.partition_point(|task| task.region <= region);
    &rest[..count]
}
