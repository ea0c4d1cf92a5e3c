//! Where a region ends.
ghost use Rattle.std.specs.Prelude.{◌≡◌, ◌↔◌, IsTrue, ℕ};
ghost use Rattle.dd_blocks.specs.WellFormed.{IsWellFormed};
ghost use Rattle.dd_legal.specs.Homes.{IsAtHome};
ghost use Rattle.dd_machine.specs.Legal.{MayClose};
ghost use Rattle.dd_machine.specs.Words.{IsOneOf, blocks, spaces};
ghost use Rattle.dd_tables.specs.Sized.{IsSized};
ghost use Rattle.dd_tables.specs.Tables.{state_of};

use dd_blocks::Plan;
use dd_tables::Tables;
use dd_tables::rows::block_count;

/// Whether the copy of a block in a space, where there is one, is at home, idle and current.
fn is_at_home(tables: &Tables, plan: &Plan, space: u32, block: u32) -> bool
    requires well { IsWellFormed plan.now }
    requires sized { IsSized plan.now tables.now }
    requires block { IsOneOf (blocks plan.now) block }
    ensures { IsTrue result ↔ IsAtHome plan.now (state_of plan.now tables.now) space block }
{
    if !tables.copies.is_any(space, block) {
        return true;
    }
    tables.copies.is_idle(space, block)
        && tables.home_of(block) == space
        && tables.is_current(plan, space, block)
}

/// Whether all copies of a space are.
fn are_at_home(tables: &Tables, plan: &Plan, space: u32) -> bool
    requires well { IsWellFormed plan.now }
    requires sized { IsSized plan.now tables.now }
    ensures { IsTrue result
        ↔ ((b : ℕ) → IsOneOf (blocks plan.now) b → IsAtHome plan.now (state_of plan.now tables.now) space b) }
{
    for i in 0..block_count(plan) {
        if !is_at_home(tables, plan, space, i + 1) {
            return false;
        }
    }
    true
}

/// Whether all copies are.
fn all_at_home(tables: &Tables, plan: &Plan) -> bool
    requires well { IsWellFormed plan.now }
    requires sized { IsSized plan.now tables.now }
    ensures { IsTrue result ↔ ((s b : ℕ) → IsOneOf (spaces plan.now) s → IsOneOf (blocks plan.now) b
        → IsAtHome plan.now (state_of plan.now tables.now) s b) }
{
    for i in 0..plan.spaces.as_slice().len() as u32 {
        if !are_at_home(tables, plan, i + 1) {
            return false;
        }
    }
    true
}

pub(crate) fn may_close(tables: &Tables, plan: &Plan, region: u32) -> bool
    requires well { IsWellFormed plan.now }
    requires sized { IsSized plan.now tables.now }
    ensures { IsTrue result ↔ MayClose plan.now (state_of plan.now tables.now) region }
{
    if tables.region != Some(region) {
        return false;
    }
    if !tables.all_done(plan, region) {
        return false;
    }
    if tables.pin.is_some() {
        return false;
    }
    all_at_home(tables, plan)
}
