//! What is pinned, what is in use or wanted of a space, and what is spilled next.
ghost use Rattle.std.specs.Prelude.{◌≡◌, ◌≢◌, ◌+◌, ◌<◌, ◌≤◌, ◌^◌, ◌||◌, ℕ, Option, Some};
ghost use Rattle.std.specs.List.{list_any};
ghost use Rattle.dd_blocks.specs.WellFormed.{IsWellFormed};
ghost use Rattle.dd_copies.specs.CopyTables.{copies_of};
ghost use Rattle.dd_tables.specs.Shares.{is_user};
ghost use Rattle.dd_tables.specs.Sized.{IsSized};
ghost use Rattle.dd_machine.specs.declared.task_state.TaskState.TheVariants.{Waiting};
ghost use Rattle.dd_machine.specs.Legal.{held_too};
ghost use Rattle.dd_tables.specs.Tables.{state_of, tasks_of};
ghost use Rattle.dd_machine.specs.Bytes.{beside_bytes, is_pinned, load, pin_bytes, reserved, when};
ghost use Rattle.dd_machine.specs.Tests.{is_here_or_coming, is_in_state, is_pin};
ghost use Rattle.dd_machine.specs.Words.{IsOneOf, blocks, bytes, place, tasks, total, touches};

use crate::rows::{argument_bytes, block_count, bytes, place, scratch, touches};
use crate::sums::when;
use crate::tables::Tables;
use dd_blocks::Plan;

/// Whether a task at work, where there is one, is of the space and touches the block.
fn is_user(plan: &Plan, space: u32, block: u32, task: u32) -> bool
    requires well { IsWellFormed plan.now }
    requires task { task ≢ 0 → IsOneOf (tasks plan.now) task }
    ensures { result ≡ is_user plan.now space block task }
{
    task != 0 && place(plan, task) == space && touches(plan, task, block)
}

impl Tables {
    /// Whether a block is pinned on a space.
    pub fn is_pinned(&self, plan: &Plan, space: u32, block: u32) -> bool
        requires well { IsWellFormed plan.now }
        requires sized { IsSized plan.now self.now }
        ensures { result ≡ is_pinned plan.now (state_of plan.now self.now) space block }
    {
        self.is_pin(space, block) || self.is_used(plan, space, block)
    }

    /// Whether the pin is on a copy.
    fn is_pin(&self, space: u32, block: u32) -> bool
        ensures { result ≡ is_pin self.now.pin space block }
    {
        match self.pin {
            Some((s, b)) => s == space && b == block,
            None => false,
        }
    }

    /// Whether a task at work in a space touches a block.
    fn is_used(&self, plan: &Plan, space: u32, block: u32) -> bool
        requires well { IsWellFormed plan.now }
        requires sized { IsSized plan.now self.now }
        ensures { result ≡ list_any (is_user plan.now space block) self.now.at_work.items }
    {
        for i in 0..self.at_work.len() as u32 {
            if is_user(plan, space, block, self.worker(plan, i + 1)) {
                return true;
            }
        }
        false
    }

    /// The bytes of the pinned block, where a region is open and the pin is in the space.
    fn pin_bytes(&self, plan: &Plan, space: u32) -> u64
        requires { (s b : ℕ) → self.now.pin ≡ Some (s, b) → IsOneOf (blocks plan.now) b }
        ensures value { result ≡ pin_bytes plan.now (state_of plan.now self.now) space }
        ensures small { result < 2 ^ 35 }
    {
        match (self.region, self.pin) {
            (Some(_), Some((s, b))) => when(s == space, bytes(plan, b)),
            _ => 0,
        }
    }

    /// What the tasks and the pin take beside their blocks.
    fn beside_bytes(&self, plan: &Plan, space: u32) -> u64
        requires well { IsWellFormed plan.now }
        requires sized { IsSized plan.now self.now }
        requires pin { (s b : ℕ) → self.now.pin ≡ Some (s, b) → IsOneOf (blocks plan.now) b }
        ensures value { result ≡ beside_bytes plan.now (state_of plan.now self.now) space }
        ensures small { result ≤ 2 ^ 47 }
    {
        self.active_bytes(plan, space)
            + (self.scratch_bytes(plan, space) + self.pin_bytes(plan, space))
    }

    /// What is in use of a space or wanted, in bytes.
    pub fn load(&self, plan: &Plan, space: u32) -> u64
        requires well { IsWellFormed plan.now }
        requires sized { IsSized plan.now self.now }
        requires pin { (s b : ℕ) → self.now.pin ≡ Some (s, b) → IsOneOf (blocks plan.now) b }
        ensures value { result ≡ load plan.now (state_of plan.now self.now) space }
    {
        self.wanted_bytes(plan, space) + self.beside_bytes(plan, space)
    }

    /// The bytes of the blocks of a space that are in memory, coming or pinned.
    #[tactic(auto, using(crate::proofs::SumsLemmas::total_more))]
    fn wanted_bytes(&self, plan: &Plan, space: u32) -> u64
        requires well { IsWellFormed plan.now }
        requires sized { IsSized plan.now self.now }
        ensures value { result ≡ total (blocks plan.now) (λ b. when (is_in_state is_here_or_coming (copies_of self.now.copies space b) || is_pinned plan.now (state_of plan.now self.now) space b) (bytes plan.now b)) }
        ensures small { result ≤ 2 ^ 47 }
    {
        let mut sum = 0;
        for i in 0..block_count(plan) {
            let block = i + 1;
            let is_wanted = self.copies.is_here_or_coming(space, block)
                || self.is_pinned(plan, space, block);
            sum += when(is_wanted, bytes(plan, block));
        }
        sum
    }

    /// The bytes of the blocks that are pinned on a space, or touched by one task more.
    #[tactic(auto, using(crate::proofs::SumsLemmas::total_more))]
    fn pinned_bytes_with(&self, plan: &Plan, space: u32, task: u32) -> u64
        requires well { IsWellFormed plan.now }
        requires sized { IsSized plan.now self.now }
        requires task { IsOneOf (tasks plan.now) task }
        ensures value { result
            ≡ total (blocks plan.now) (λ b. when (is_pinned plan.now (state_of plan.now self.now) space b || touches plan.now task b) (bytes plan.now b)) }
        ensures small { result ≤ 2 ^ 47 }
    {
        let mut sum = 0;
        for i in 0..block_count(plan) {
            let block = i + 1;
            let is_wanted = self.is_pinned(plan, space, block) || touches(plan, task, block);
            sum += when(is_wanted, bytes(plan, block));
        }
        sum
    }

    /// What is reserved of the space of a task that waits, were the task Held; in bytes.
    pub fn reserved_with(&self, plan: &Plan, task: u32) -> u64
        requires well { IsWellFormed plan.now }
        requires sized { IsSized plan.now self.now }
        requires task { IsOneOf (tasks plan.now) task }
        requires waiting { tasks_of self.now.tasks.items task ≡ Waiting }
        requires pin { (s b : ℕ) → self.now.pin ≡ Some (s, b) → IsOneOf (blocks plan.now) b }
        ensures { result ≡ reserved plan.now (held_too (state_of plan.now self.now) task) (place plan.now task) }
    {
        let space = place(plan, task);
        let beside = argument_bytes(plan, task) + scratch(plan, task);
        self.pinned_bytes_with(plan, space, task) + (self.beside_bytes(plan, space) + beside)
    }
}
