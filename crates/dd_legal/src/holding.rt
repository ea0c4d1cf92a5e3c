//! Where a task is held, and gets copies.
ghost use Rattle.std.specs.Prelude.{◌≡◌, ◌↔◌, ◌<◌, ◌≤◌, ◌^◌, IsTrue, ℕ, Some, false, true};
ghost use Rattle.std.specs.List.{list_all};
ghost use Rattle.dd_blocks.specs.Numbered.{task_row};
ghost use Rattle.dd_blocks.specs.WellFormed.{IsWellFormed};
ghost use Rattle.dd_machine.specs.declared.task_state.TaskState.TheVariants.{Done, Waiting};
ghost use Rattle.dd_machine.specs.Legal.{MayHold, MayMake};
ghost use Rattle.dd_machine.specs.Tests.{is_active, is_done};
ghost use Rattle.dd_machine.specs.Words.{IsOneOf, blocks, has_number, proc_of, tasks};
ghost use Rattle.dd_tables.specs.Sized.{IsSized};
ghost use Rattle.dd_tables.specs.Tables.{state_of, tasks_of};

use dd_blocks::Plan;
use dd_tables::Tables;
use dd_tables::rows::{bytes, is_task, limit, place, proc_of, touches};

/// Whether some tasks are done.
fn are_done(tables: &Tables, tasks: &[u32]) -> bool
    ensures { result ≡ list_all (λ t. is_done (tasks_of tables.now.tasks.items t)) tasks.now }
{
    for task in tasks {
        if !tables.is_done(*task) {
            return false;
        }
    }
    true
}

/// Whether the dependencies of a task are done.
fn deps_done(tables: &Tables, plan: &Plan, task: u32) -> bool
    requires { IsOneOf (tasks plan.now) task }
    ensures { IsTrue result ↔ ((d : ℕ) → has_number (task_row plan.now task).deps d ≡ true
        → (state_of plan.now tables.now).tasks d ≡ Done) }
{
    are_done(tables, plan.task(task).deps.as_slice())
}

/// Whether no task is Held or Running on the processor of a task.
fn is_alone(tables: &Tables, plan: &Plan, task: u32) -> bool
    requires well { IsWellFormed plan.now }
    requires sized { IsSized plan.now tables.now }
    requires task { IsOneOf (tasks plan.now) task }
    ensures { IsTrue result ↔ ((t : ℕ) → IsOneOf (tasks plan.now) t → proc_of plan.now t ≡ proc_of plan.now task
        → is_active ((state_of plan.now tables.now).tasks t) ≡ false) }
{
    tables.worker(plan, proc_of(plan, task)) == 0
}

pub(crate) fn may_hold(tables: &Tables, plan: &Plan, task: u32) -> bool
    requires well { IsWellFormed plan.now }
    requires sized { IsSized plan.now tables.now }
    requires pin { (s b : ℕ) → tables.now.pin ≡ Some (s, b) → IsOneOf (blocks plan.now) b }
    ensures { IsTrue result ↔ MayHold plan.now (state_of plan.now tables.now) task }
{
    if !is_task(plan, task) {
        return false;
    }
    if tables.region != Some(plan.task(task).region) {
        return false;
    }
    if !tables.waits(task) {
        return false;
    }
    if !deps_done(tables, plan, task) {
        return false;
    }
    is_alone(tables, plan, task)
        && tables.reserved_with(plan, task) <= limit(plan, place(plan, task))
}

/// Whether a Held task may get a copy of a block in its space.
pub fn may_make(tables: &Tables, plan: &Plan, task: u32, block: u32) -> bool
    requires well { IsWellFormed plan.now }
    requires sized { IsSized plan.now tables.now }
    ensures { IsTrue result ↔ MayMake plan.now (state_of plan.now tables.now) task block }
{
    tables.holds(plan, task)
        && touches(plan, task, block)
        && tables.copies.is_absent(place(plan, task), block)
        && tables.fits(plan, place(plan, task), bytes(plan, block))
}
