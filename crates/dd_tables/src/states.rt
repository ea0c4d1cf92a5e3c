//! How far tasks are, where copies are, and what the statements ask for next.
ghost use Rattle.std.specs.Prelude.{◌≡◌, ◌↔◌, ◌<◌, ◌≤◌, ◌^◌, ℕ, IsTrue, Some};
ghost use Rattle.dd_blocks.specs.Numbered.{task_row};
ghost use Rattle.dd_blocks.specs.WellFormed.{IsWellFormed};
ghost use Rattle.dd_copies.specs.CopyTables.{copies_of};
ghost use Rattle.dd_machine.specs.declared.task_state.TaskState.TheVariants.{Done, Held, Running, Waiting};
ghost use Rattle.dd_machine.specs.Legal.{AllDone, Fits};
ghost use Rattle.dd_machine.specs.Owed.{left, next_event, next_line};
ghost use Rattle.dd_machine.specs.Tests.{is_here, is_in_state};
ghost use Rattle.dd_machine.specs.Words.{IsOneOf, spaces, tasks};
ghost use Rattle.dd_tables.specs.Sized.{IsSized};
ghost use Rattle.dd_tables.specs.Tables.{state_of, tasks_of};

use crate::rows::limit;
use crate::tables::Tables;
use dd_blocks::Plan;
use dd_machine::{Event, TaskState};

/// How many tasks stand before those of a region.
fn tasks_before(plan: &Plan, region: u32) -> u32
    requires { IsWellFormed plan.now }
    ensures within { result ≤ tasks plan.now }
    ensures before { (t : ℕ) → 1 ≤ t → t ≤ result → (task_row plan.now t).region < region }
    ensures behind { (t : ℕ) → result < t → t ≤ tasks plan.now → region ≤ (task_row plan.now t).region }
{
    plan.tasks
        .as_slice()
        .partition_point(|task| task.region < region) as u32
}

impl Tables {
    /// Whether so many more bytes are within the limit of a space.
    pub fn fits(&self, plan: &Plan, space: u32, more: u64) -> bool
        requires well { IsWellFormed plan.now }
        requires sized { IsSized plan.now self.now }
        requires space { IsOneOf (spaces plan.now) space }
        requires small { more ≤ 2 ^ 40 }
        ensures { IsTrue result ↔ Fits plan.now (state_of plan.now self.now) space more }
    {
        self.resident(plan, space) + more <= limit(plan, space)
    }

    /// Whether a task is Held.
    pub fn holds(&self, plan: &Plan, task: u32) -> bool
        requires { IsSized plan.now self.now }
        ensures value { IsTrue result ↔ ((state_of plan.now self.now).tasks task ≡ Held) }
        ensures known { IsTrue result → IsOneOf (tasks plan.now) task }
    {
        self.is_task_held(task)
    }

    /// Whether a task waits.
    pub fn waits(&self, task: u32) -> bool
        ensures { IsTrue result ↔ (tasks_of self.now.tasks.items task ≡ Waiting) }
    {
        matches!(self.task(task), TaskState::Waiting)
    }

    /// Whether a task is done.
    pub fn is_done(&self, task: u32) -> bool
        ensures { IsTrue result ↔ (tasks_of self.now.tasks.items task ≡ Done) }
    {
        matches!(self.task(task), TaskState::Done)
    }

    /// Whether a task runs on a worker.
    pub fn runs_on(&self, task: u32, worker: u32) -> bool
        ensures { IsTrue result ↔ (tasks_of self.now.tasks.items task ≡ Running worker) }
    {
        self.task(task) == TaskState::Running(worker)
    }

    /// Whether every task of a region is done.
    pub fn all_done(&self, plan: &Plan, region: u32) -> bool
        requires { IsWellFormed plan.now }
        ensures { IsTrue result ↔ AllDone plan.now (state_of plan.now self.now) region }
    {
        for i in tasks_before(plan, region)..plan.tasks.as_slice().len() as u32 {
            let task = i + 1;
            if plan.task(task).region != region {
                return true;
            }
            if !self.is_done(task) {
                return false;
            }
        }
        true
    }

    /// Whether the event is the next of the statements.
    pub fn is_next(&self, plan: &Plan, event: Event) -> bool
        requires { IsSized plan.now self.now }
        ensures { IsTrue result ↔ (next_event (left plan.now (state_of plan.now self.now).progress) ≡ Some event) }
    {
        match self.next {
            Some(entry) => entry.event == event,
            None => false,
        }
    }

    /// The line that the next entry has. None comes where all entries of all rows were made.
    pub fn line(&self, plan: &Plan) -> Option<u32>
        requires { IsSized plan.now self.now }
        ensures { result ≡ next_line (left plan.now (state_of plan.now self.now).progress) }
    {
        Some(self.next?.line)
    }

    /// Whether a copy is in memory, in a space of the Plan.
    pub fn has_here(&self, plan: &Plan, space: u32, block: u32) -> bool
        requires { IsSized plan.now self.now }
        ensures value { result ≡ is_in_state is_here (copies_of self.now.copies space block) }
        ensures known { IsTrue result → IsOneOf (spaces plan.now) space }
    {
        self.copies.is_here(space, block)
    }
}
