//! Blocks that leave, and come back.
ghost use Rattle.std.specs.Prelude.{◌≡◌, ◌↔◌, IsTrue, ℕ, Some};
ghost use Rattle.dd_blocks.specs.WellFormed.{IsWellFormed};
ghost use Rattle.dd_machine.specs.Legal.{MayCall, MayCome, MayGone, MayPick};
ghost use Rattle.dd_machine.specs.Words.{IsOneOf, blocks};
ghost use Rattle.dd_tables.specs.Sized.{IsSized};
ghost use Rattle.dd_tables.specs.Tables.{state_of};

use dd_blocks::Plan;
use dd_tables::Tables;
use dd_tables::rows::{bytes, is_block, is_space, limit};

/// Whether a block of a space may start to leave.
pub fn may_pick(tables: &Tables, plan: &Plan, space: u32, block: u32) -> bool
    requires well { IsWellFormed plan.now }
    requires sized { IsSized plan.now tables.now }
    requires pin { (s b : ℕ) → tables.now.pin ≡ Some (s, b) → IsOneOf (blocks plan.now) b }
    ensures { IsTrue result ↔ MayPick plan.now (state_of plan.now tables.now) space block }
{
    if !is_space(plan, space) {
        return false;
    }
    limit(plan, space) < tables.load(plan, space) && tables.victim(plan, space) == Some(block)
}

pub(crate) fn may_gone(tables: &Tables, plan: &Plan, space: u32, block: u32) -> bool
    ensures { IsTrue result ↔ MayGone plan.now (state_of plan.now tables.now) space block }
{
    is_space(plan, space) && is_block(plan, block) && tables.copies.is_leaving(space, block)
}

/// Whether a block that is out may come back.
pub fn may_call(tables: &Tables, plan: &Plan, space: u32, block: u32) -> bool
    requires well { IsWellFormed plan.now }
    requires sized { IsSized plan.now tables.now }
    ensures { IsTrue result ↔ MayCall plan.now (state_of plan.now tables.now) space block }
{
    is_space(plan, space)
        && is_block(plan, block)
        && tables.copies.is_out(space, block)
        && tables.is_pinned(plan, space, block)
        && tables.fits(plan, space, bytes(plan, block))
}

pub(crate) fn may_come(tables: &Tables, plan: &Plan, space: u32, block: u32) -> bool
    ensures { IsTrue result ↔ MayCome plan.now (state_of plan.now tables.now) space block }
{
    is_space(plan, space) && is_block(plan, block) && tables.copies.is_coming(space, block)
}
