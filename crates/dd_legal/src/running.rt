//! Where a task starts and ends.
ghost use Rattle.std.specs.Prelude.{◌≡◌, ◌≢◌, ◌↔◌, ◌≤◌, IsTrue, ℕ, true, All};
ghost use Rattle.std.specs.List.{list_all};
ghost use Rattle.dd_blocks.specs.WellFormed.{IsWellFormed};
ghost use Rattle.dd_copies.specs.CopyTables.{copies_of};
ghost use Rattle.dd_legal.specs.Starts.{MayStart};
ghost use Rattle.dd_machine.specs.declared.task_state.TaskState.TheVariants.{Running};
ghost use Rattle.dd_machine.specs.Legal.{MayClaim};
ghost use Rattle.dd_machine.specs.Needed.{reads_current};
ghost use Rattle.dd_machine.specs.Tests.{Has, is_here, is_in_state, is_running};
ghost use Rattle.dd_machine.specs.Words.{IsOneOf, blocks, tasks, touches};
ghost use Rattle.dd_tables.specs.Sized.{IsSized};
ghost use Rattle.dd_tables.specs.Tables.{state_of, tasks_of};

use dd_blocks::Plan;
use dd_tables::Tables;
use dd_tables::rows::{argument_bytes, place};

/// How many workers there are.
const WORKERS: u32 = 64;

/// Whether all blocks of a task are in memory in a space.
fn all_here(tables: &Tables, plan: &Plan, task: u32, space: u32) -> bool
    requires { IsOneOf (tasks plan.now) task }
    ensures { IsTrue result
        ↔ ((b : ℕ) → touches plan.now task b ≡ true → Has (state_of plan.now tables.now) space b is_here) }
{
    are_here(tables, space, plan.task(task).blocks.as_slice())
}

/// Whether some blocks are in memory in a space.
fn are_here(tables: &Tables, space: u32, blocks: &[u32]) -> bool
    ensures { result ≡ list_all (λ b. is_in_state is_here (copies_of tables.now.copies space b)) blocks.now }
{
    for block in blocks {
        if !tables.copies.is_here(space, *block) {
            return false;
        }
    }
    true
}

/// Whether all that a task reads is current in its copies of some blocks.
fn are_current(tables: &Tables, plan: &Plan, task: u32, found: &[u32]) -> bool
    requires well { IsWellFormed plan.now }
    requires sized { IsSized plan.now tables.now }
    requires task { IsOneOf (tasks plan.now) task }
    requires blocks { All (λ b. IsOneOf (blocks plan.now) b) found.now }
    ensures { result ≡ list_all (reads_current plan.now (state_of plan.now tables.now) task) found.now }
{
    for block in found {
        if !tables.reads_current(plan, task, *block) {
            return false;
        }
    }
    true
}

/// Whether all that a task reads is current in its copies.
fn all_current(tables: &Tables, plan: &Plan, task: u32) -> bool
    requires well { IsWellFormed plan.now }
    requires sized { IsSized plan.now tables.now }
    requires task { IsOneOf (tasks plan.now) task }
    ensures { IsTrue result ↔ ((b : ℕ) → touches plan.now task b ≡ true
        → reads_current plan.now (state_of plan.now tables.now) task b ≡ true) }
{
    are_current(tables, plan, task, plan.task(task).blocks.as_slice())
}

/// Whether a task may start, the worker aside.
pub fn may_start(tables: &Tables, plan: &Plan, task: u32) -> bool
    requires well { IsWellFormed plan.now }
    requires sized { IsSized plan.now tables.now }
    ensures { IsTrue result ↔ MayStart plan.now (state_of plan.now tables.now) task }
{
    if !tables.holds(plan, task) {
        return false;
    }
    let space = place(plan, task);
    if !all_here(tables, plan, task, space) {
        return false;
    }
    if !all_current(tables, plan, task) {
        return false;
    }
    tables.has_no_lend(plan, task) && tables.fits(plan, space, argument_bytes(plan, task))
}

/// Whether no task runs on a worker.
fn is_free(tables: &Tables, plan: &Plan, worker: u32) -> bool
    requires well { IsWellFormed plan.now }
    requires sized { IsSized plan.now tables.now }
    ensures { IsTrue result
        ↔ ((t : ℕ) → IsOneOf (tasks plan.now) t → (state_of plan.now tables.now).tasks t ≢ Running worker) }
{
    for i in 0..tables.at_work.len() as u32 {
        let task = tables.worker(plan, i + 1);
        if task != 0 && tables.runs_on(task, worker) {
            return false;
        }
    }
    true
}

pub(crate) fn may_claim(tables: &Tables, plan: &Plan, task: u32, worker: u32) -> bool
    requires well { IsWellFormed plan.now }
    requires sized { IsSized plan.now tables.now }
    ensures { IsTrue result ↔ MayClaim plan.now (state_of plan.now tables.now) task worker }
{
    if worker == 0 {
        return false;
    }
    if WORKERS < worker {
        return false;
    }
    is_free(tables, plan, worker) && may_start(tables, plan, task)
}

pub(crate) fn may_finish(tables: &Tables, task: u32) -> bool
    ensures { result ≡ is_running (tasks_of tables.now.tasks.items task) }
{
    tables.is_running(task)
}
