//! Where needed elements are copied, and a copy is lent for them.
ghost use Rattle.std.specs.Prelude.{◌≡◌, ◌↔◌, ◌≤◌, IsTrue};
ghost use Rattle.dd_blocks.specs.WellFormed.{IsWellFormed};
ghost use Rattle.dd_machine.specs.Legal.{MayCopy, MayFetch, MayLend};
ghost use Rattle.dd_machine.specs.Words.{tasks};
ghost use Rattle.dd_tables.specs.Sized.{IsSized};
ghost use Rattle.dd_tables.specs.Tables.{state_of};

use dd_blocks::Plan;
use dd_tables::Tables;
use dd_tables::rows::{bytes, is_block, is_space};

/// Whether a task is Held, or for 0 whether the block is pinned at its home in an open region.
fn may_fetch(tables: &Tables, plan: &Plan, task: u32, block: u32) -> bool
    requires { IsSized plan.now tables.now }
    ensures value { IsTrue result ↔ MayFetch (state_of plan.now tables.now) task block }
    ensures known { IsTrue result → task ≤ tasks plan.now }
{
    if task == 0 {
        tables.region.is_some() && tables.pin == Some((tables.home_of(block), block))
    } else {
        tables.holds(plan, task)
    }
}

/// Whether so many elements may be copied to a task, or for 0 to the home.
pub fn may_copy(
    tables: &Tables,
    plan: &Plan,
    task: u32,
    block: u32,
    source: u32,
    count: u64,
) -> bool
    requires well { IsWellFormed plan.now }
    requires sized { IsSized plan.now tables.now }
    ensures { IsTrue result ↔ MayCopy plan.now (state_of plan.now tables.now) task block source count }
{
    is_space(plan, source)
        && is_block(plan, block)
        && may_fetch(tables, plan, task, block)
        && tables
            .copies
            .is_here(tables.own_space(plan, task, block), block)
        && tables.copies.is_here_or_lent(source, block, task)
        && 0 < count
        && count == tables.needed_len(plan, task, block, source)
}

/// Whether a copy may be lent to a task, or for 0 to the home.
pub fn may_lend(tables: &Tables, plan: &Plan, task: u32, block: u32, source: u32) -> bool
    requires well { IsWellFormed plan.now }
    requires sized { IsSized plan.now tables.now }
    ensures { IsTrue result ↔ MayLend plan.now (state_of plan.now tables.now) task block source }
{
    if !is_space(plan, source) {
        return false;
    }
    if !is_block(plan, block) {
        return false;
    }
    if !may_fetch(tables, plan, task, block) {
        return false;
    }
    let own = tables.own_space(plan, task, block);
    if !tables.has_here(plan, own, block) {
        return false;
    }
    tables.copies.is_out(source, block)
        && tables.has_no_lend(plan, task)
        && 0 < tables.needed_len(plan, task, block, source)
        && tables.fits(plan, own, bytes(plan, block))
}
