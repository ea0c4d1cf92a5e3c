//! What is in use of a space.
ghost use Rattle.std.specs.Prelude.{◌≡◌, ◌≢◌, ◌+◌, ◌<◌, ◌≤◌, ◌^◌};
ghost use Rattle.dd_blocks.specs.WellFormed.{IsWellFormed};
ghost use Rattle.dd_copies.specs.CopyTables.{copies_of};
ghost use Rattle.dd_tables.specs.Sized.{IsSized};
ghost use Rattle.dd_tables.specs.Tables.{state_of, tasks_of};
ghost use Rattle.dd_tables.specs.Shares.{active_of, running_of, scratch_of, worker_at};
ghost use Rattle.dd_machine.specs.Bytes.{active_bytes, copy_bytes, scratch_bytes, is_lent_into, lent_bytes, resident, running_bytes, when};
ghost use Rattle.dd_machine.specs.Tests.{is_active, is_held, is_running, is_task_held, is_in_state, is_lent, is_pin_on};
ghost use Rattle.dd_machine.specs.Words.{IsOneOf, blocks, bytes, tasks, total};

use crate::rows::{argument_bytes, block_count, bytes, place, scratch};
use crate::tables::Tables;
use dd_blocks::Plan;
use dd_copies::at;
use dd_machine::TaskState;

/// A number where the test holds, or else 0.
pub fn when(test: bool, number: u64) -> u64
    ensures { result ≡ when test number }
{
    if test { number } else { 0 }
}

impl Tables {
    /// The bytes of the copies in a space.
    #[tactic(auto, using(crate::proofs::SumsLemmas::total_more))]
    fn copy_bytes(&self, plan: &Plan, space: u32) -> u64
        requires { IsWellFormed plan.now }
        ensures value { result ≡ copy_bytes plan.now (state_of plan.now self.now) space }
        ensures small { result ≤ 2 ^ 47 }
    {
        let mut sum = 0;
        for i in 0..block_count(plan) {
            let block = i + 1;
            sum += when(self.copies.is_held(space, block), bytes(plan, block));
        }
        sum
    }

    /// Whether what is lent to a number is lent to a task of the space, or to the pin there.
    fn is_lent_into(&self, plan: &Plan, space: u32, task: u32) -> bool
        requires { IsWellFormed plan.now }
        ensures { result ≡ is_lent_into plan.now (state_of plan.now self.now) space task }
    {
        if task == 0 {
            self.is_pin_on(space)
        } else {
            place(plan, task) == space
        }
    }

    /// Whether the pin is in a space.
    pub fn is_pin_on(&self, space: u32) -> bool
        ensures { result ≡ is_pin_on self.now.pin space }
    {
        match self.pin {
            Some((pinned, _)) => pinned == space,
            None => false,
        }
    }

    /// Whether the copy of a block in one space is lent into another.
    fn is_lent(&self, plan: &Plan, space: u32, lender: u32, block: u32) -> bool
        requires { IsWellFormed plan.now }
        ensures { result ≡ is_in_state (is_lent (is_lent_into plan.now (state_of plan.now self.now) space)) (copies_of self.now.copies lender block) }
    {
        match self.copies.lent_to(lender, block) {
            Some(task) => self.is_lent_into(plan, space, task),
            None => false,
        }
    }

    /// The bytes of the copies in one space that are lent into another.
    #[tactic(auto, using(crate::proofs::SumsLemmas::total_more))]
    fn lent_from(&self, plan: &Plan, space: u32, lender: u32) -> u64
        requires { IsWellFormed plan.now }
        ensures value { result ≡ total (blocks plan.now) (λ b. when (is_in_state (is_lent (is_lent_into plan.now (state_of plan.now self.now) space)) (copies_of self.now.copies lender b)) (bytes plan.now b)) }
        ensures small { result ≤ 2 ^ 47 }
    {
        let mut sum = 0;
        for i in 0..block_count(plan) {
            let block = i + 1;
            sum += when(self.is_lent(plan, space, lender, block), bytes(plan, block));
        }
        sum
    }

    /// The bytes of the copies that are lent into a space.
    #[tactic(auto, using(crate::proofs::SumsLemmas::total_more))]
    fn lent_bytes(&self, plan: &Plan, space: u32) -> u64
        requires { IsWellFormed plan.now }
        ensures value { result ≡ lent_bytes plan.now (state_of plan.now self.now) space }
        ensures small { result ≤ 2 ^ 50 }
    {
        let mut sum = 0;
        for i in 0..plan.spaces.as_slice().len() as u32 {
            sum += self.lent_from(plan, space, i + 1);
        }
        sum
    }

    /// The task at work on a processor, or 0.
    pub fn worker(&self, plan: &Plan, proc: u32) -> u32
        requires { IsSized plan.now self.now }
        ensures value { result ≡ worker_at self.now.at_work.items proc }
        ensures known { result ≢ 0 → IsOneOf (tasks plan.now) result }
    {
        match at(self.at_work.as_slice(), proc) {
            Some(task) => *task,
            None => 0,
        }
    }

    /// The bytes of the arguments of a task that is Running in a space.
    #[tactic(auto, unfolding(crate::specs::Tables::tasks_of))]
    fn running_at(&self, plan: &Plan, space: u32, task: u32) -> u64
        requires well { IsWellFormed plan.now }
        requires task { task ≢ 0 → IsOneOf (tasks plan.now) task }
        ensures value { result ≡ running_of plan.now (state_of plan.now self.now) space task }
        ensures small { result ≤ 2 ^ 40 }
    {
        if task == 0 {
            return 0;
        }
        when(
            self.is_running(task) && place(plan, task) == space,
            argument_bytes(plan, task),
        )
    }

    /// The bytes of the arguments of a task that is Held or Running in a space.
    #[tactic(auto, unfolding(crate::specs::Tables::tasks_of))]
    fn active_at(&self, plan: &Plan, space: u32, task: u32) -> u64
        requires well { IsWellFormed plan.now }
        requires task { task ≢ 0 → IsOneOf (tasks plan.now) task }
        ensures value { result ≡ active_of plan.now (state_of plan.now self.now) space task }
        ensures small { result ≤ 2 ^ 40 }
    {
        if task == 0 {
            return 0;
        }
        when(
            self.is_active(task) && place(plan, task) == space,
            argument_bytes(plan, task),
        )
    }

    /// The bytes of the scratch of a task that is Held in a space.
    #[tactic(auto, unfolding(crate::specs::Tables::tasks_of))]
    fn scratch_at(&self, plan: &Plan, space: u32, task: u32) -> u64
        requires well { IsWellFormed plan.now }
        requires task { task ≢ 0 → IsOneOf (tasks plan.now) task }
        ensures value { result ≡ scratch_of plan.now (state_of plan.now self.now) space task }
        ensures small { result ≤ 2 ^ 40 }
    {
        if task == 0 {
            return 0;
        }
        when(
            self.is_task_held(task) && place(plan, task) == space,
            scratch(plan, task),
        )
    }

    /// The bytes of the arguments of the tasks that are Running in a space.
    #[tactic(auto, using(crate::proofs::SumsLemmas::total_more))]
    fn running_bytes(&self, plan: &Plan, space: u32) -> u64
        requires well { IsWellFormed plan.now }
        requires sized { IsSized plan.now self.now }
        ensures value { result ≡ running_bytes plan.now (state_of plan.now self.now) space }
        ensures small { result ≤ 2 ^ 45 }
    {
        let mut sum = 0;
        for i in 0..self.at_work.len() as u32 {
            sum += self.running_at(plan, space, self.worker(plan, i + 1));
        }
        sum
    }

    /// Of those that are Held or Running.
    #[tactic(auto, using(crate::proofs::SumsLemmas::total_more))]
    pub fn active_bytes(&self, plan: &Plan, space: u32) -> u64
        requires well { IsWellFormed plan.now }
        requires sized { IsSized plan.now self.now }
        ensures value { result ≡ active_bytes plan.now (state_of plan.now self.now) space }
        ensures small { result ≤ 2 ^ 45 }
    {
        let mut sum = 0;
        for i in 0..self.at_work.len() as u32 {
            sum += self.active_at(plan, space, self.worker(plan, i + 1));
        }
        sum
    }

    /// The bytes of the scratch of those that are Held.
    #[tactic(auto, using(crate::proofs::SumsLemmas::total_more))]
    pub fn scratch_bytes(&self, plan: &Plan, space: u32) -> u64
        requires well { IsWellFormed plan.now }
        requires sized { IsSized plan.now self.now }
        ensures value { result ≡ scratch_bytes plan.now (state_of plan.now self.now) space }
        ensures small { result ≤ 2 ^ 45 }
    {
        let mut sum = 0;
        for i in 0..self.at_work.len() as u32 {
            sum += self.scratch_at(plan, space, self.worker(plan, i + 1));
        }
        sum
    }

    /// What is in use of a space, in bytes.
    pub fn resident(&self, plan: &Plan, space: u32) -> u64
        requires well { IsWellFormed plan.now }
        requires sized { IsSized plan.now self.now }
        ensures value { result ≡ resident plan.now (state_of plan.now self.now) space }
        ensures small { result ≤ 2 ^ 51 }
    {
        self.copy_bytes(plan, space)
            + (self.lent_bytes(plan, space) + self.running_bytes(plan, space))
    }

    /// Whether a task is Running, Held or Running, and Held.
    pub fn is_running(&self, task: u32) -> bool
        ensures { result ≡ is_running (tasks_of self.now.tasks.items task) }
    {
        matches!(self.task(task), TaskState::Running(_))
    }

    pub fn is_active(&self, task: u32) -> bool
        ensures { result ≡ is_active (tasks_of self.now.tasks.items task) }
    {
        matches!(self.task(task), TaskState::Held | TaskState::Running(_))
    }

    pub fn is_task_held(&self, task: u32) -> bool
        ensures { result ≡ is_task_held (tasks_of self.now.tasks.items task) }
    {
        matches!(self.task(task), TaskState::Held)
    }
}
