//! A change of a task's state.
ghost use Rattle.std.specs.Prelude.{◌≡◌, ℕ, nat_eq, true, if◌then◌else◌};
ghost use Rattle.dd_blocks.specs.WellFormed.{IsWellFormed};
ghost use Rattle.dd_machine.specs.States.{at_one};
ghost use Rattle.dd_machine.specs.Tests.{is_active};
ghost use Rattle.dd_machine.specs.Words.{IsOneOf, proc_of, tasks};
ghost use Rattle.dd_tables.specs.Sized.{IsSized};
ghost use Rattle.dd_tables.specs.Tables.{state_of};

use dd_blocks::Plan;
use dd_machine::TaskState;
use dd_tables::Tables;
use dd_tables::rows::proc_of;

/// Puts a task into a state. One that becomes Held or Running is alone on its processor.
pub fn set_task(plan: &Plan, tables: &mut Tables, task: u32, state: TaskState)
    requires well { IsWellFormed plan.now }
    requires sized { IsSized plan.now tables.old }
    requires task { IsOneOf (tasks plan.now) task }
    requires alone { is_active state ≡ true → (t : ℕ) → is_active ((state_of plan.now tables.old).tasks t) ≡ true
        → proc_of plan.now t ≡ proc_of plan.now task → t ≡ task }
    ensures value { let st = state_of plan.now tables.old in
        state_of plan.now tables.new ≡ record st { tasks = at_one st.tasks task state } }
    ensures sized { IsSized plan.now tables.new }
{
    let processor = proc_of(plan, task) as usize - 1;
    tables.tasks[task as usize - 1] = state;
    tables.at_work[processor] = worker_now(tables.at_work[processor], task, state);
}

/// The task at work on a processor, or 0, once a task of the processor is in a state.
fn worker_now(worker: u32, task: u32, state: TaskState) -> u32
    ensures { result ≡ (if is_active state then task else (if nat_eq worker task then 0 else worker)) }
{
    match state {
        TaskState::Held | TaskState::Running(_) => task,
        TaskState::Waiting | TaskState::Done => { if worker == task { 0 } else { worker } }
    }
}
