//! What no copy does.
ghost use Rattle.std.specs.Prelude.{◌≡◌, ◌↔◌, ℕ, false, nat_eq, IsTrue, None};
ghost use Rattle.dd_blocks.specs.WellFormed.{IsWellFormed};
ghost use Rattle.dd_copies.specs.CopyTables.{copies_of};
ghost use Rattle.dd_tables.specs.Sized.{IsSized};
ghost use Rattle.dd_machine.specs.Tests.{is_any, is_in_state, is_leaving, is_lent};
ghost use Rattle.dd_machine.specs.Words.{IsOneOf, blocks, spaces};

use crate::rows::block_count;
use crate::tables::Tables;
use dd_blocks::Plan;

impl Tables {
    /// Whether no copy is on its way out.
    pub fn none_leaves(&self, plan: &Plan) -> bool
        requires well { IsWellFormed plan.now }
        requires sized { IsSized plan.now self.now }
        ensures { IsTrue result ↔ ((s b : ℕ) → is_in_state is_leaving (copies_of self.now.copies s b) ≡ false) }
    {
        self.none_leaves_in(plan)
    }

    /// Of those in the cells.
    fn none_leaves_in(&self, plan: &Plan) -> bool
        requires { IsWellFormed plan.now }
        ensures { IsTrue result ↔ ((s b : ℕ) → IsOneOf (spaces plan.now) s → IsOneOf (blocks plan.now) b → is_in_state is_leaving (copies_of self.now.copies s b) ≡ false) }
    {
        for i in 0..plan.spaces.as_slice().len() as u32 {
            if !self.none_leaves_from(plan, i + 1) {
                return false;
            }
        }
        true
    }

    /// Of those in a space.
    fn none_leaves_from(&self, plan: &Plan, space: u32) -> bool
        requires { IsWellFormed plan.now }
        ensures { IsTrue result ↔ ((b : ℕ) → IsOneOf (blocks plan.now) b → is_in_state is_leaving (copies_of self.now.copies space b) ≡ false) }
    {
        for i in 0..block_count(plan) {
            let block = i + 1;
            if self.copies.is_leaving(space, block) {
                return false;
            }
        }
        true
    }

    /// Whether nothing is lent to a task.
    pub fn has_no_lend(&self, plan: &Plan, task: u32) -> bool
        requires well { IsWellFormed plan.now }
        requires sized { IsSized plan.now self.now }
        ensures { IsTrue result ↔ ((s b : ℕ) → is_in_state (is_lent (λ t. nat_eq t task)) (copies_of self.now.copies s b) ≡ false) }
    {
        self.has_no_lend_in(plan, task)
    }

    /// Of those in the cells.
    fn has_no_lend_in(&self, plan: &Plan, task: u32) -> bool
        requires { IsWellFormed plan.now }
        ensures { IsTrue result ↔ ((s b : ℕ) → IsOneOf (spaces plan.now) s → IsOneOf (blocks plan.now) b → is_in_state (is_lent (λ t. nat_eq t task)) (copies_of self.now.copies s b) ≡ false) }
    {
        for i in 0..plan.spaces.as_slice().len() as u32 {
            if !self.has_no_lend_from(plan, i + 1, task) {
                return false;
            }
        }
        true
    }

    /// Of those in a space.
    fn has_no_lend_from(&self, plan: &Plan, space: u32, task: u32) -> bool
        requires { IsWellFormed plan.now }
        ensures { IsTrue result ↔ ((b : ℕ) → IsOneOf (blocks plan.now) b → is_in_state (is_lent (λ t. nat_eq t task)) (copies_of self.now.copies space b) ≡ false) }
    {
        for i in 0..block_count(plan) {
            let block = i + 1;
            if self.copies.is_lent_to(space, block, task) {
                return false;
            }
        }
        true
    }

    /// Whether no space has a copy of a block.
    pub fn is_nowhere(&self, plan: &Plan, block: u32) -> bool
        requires well { IsWellFormed plan.now }
        requires sized { IsSized plan.now self.now }
        ensures { IsTrue result ↔ ((s : ℕ) → copies_of self.now.copies s block ≡ None) }
    {
        self.is_nowhere_in(plan, block)
    }

    /// Of those in the cells.
    fn is_nowhere_in(&self, plan: &Plan, block: u32) -> bool
        requires { IsWellFormed plan.now }
        ensures { IsTrue result ↔ ((s : ℕ) → IsOneOf (spaces plan.now) s → is_in_state is_any (copies_of self.now.copies s block) ≡ false) }
    {
        for i in 0..plan.spaces.as_slice().len() as u32 {
            let space = i + 1;
            if self.copies.is_any(space, block) {
                return false;
            }
        }
        true
    }
}
