//! Blocks that leave, and come back.
ghost use Rattle.std.specs.Prelude.{◌≡◌, OnErr, OnOk};
ghost use Rattle.dd_machine.specs.declared.event.Event.TheVariants.{Call, Come, Gone, Pick};
ghost use Rattle.dd_machine.specs.Effects.{after};
ghost use Rattle.dd_machine.specs.Legal.{MayCall, MayCome, MayGone, MayPick};
ghost use Rattle.dd_machine.specs.Sound.{IsSound};
ghost use Rattle.dd_tables.specs.Sized.{IsSized};
ghost use Rattle.dd_tables.specs.Tables.{state_of};

use dd_blocks::Plan;
use dd_changes::{add_front, set_state, without};
use dd_machine::CopyState;
use dd_tables::Tables;
use std::alloc::AllocError;

/// A copy starts to leave. It is out of the order of its space from now on, so that it isn't picked again.
pub fn pick(plan: &Plan, tables: &mut Tables, space: u32, block: u32)
    requires sized { IsSized plan.now tables.old }
    requires sound { IsSound plan.now (state_of plan.now tables.old) }
    requires may { MayPick plan.now (state_of plan.now tables.old) space block }
    ensures value { state_of plan.now tables.new ≡ after plan.now (state_of plan.now tables.old) (Pick space block) }
    ensures sized { IsSized plan.now tables.new }
{
    without(plan, tables, space, block);
    set_state(plan, tables, space, block, CopyState::Leaving);
}

/// A copy that was leaving is out.
pub fn gone(plan: &Plan, tables: &mut Tables, space: u32, block: u32)
    requires sized { IsSized plan.now tables.old }
    requires may { MayGone plan.now (state_of plan.now tables.old) space block }
    ensures value { state_of plan.now tables.new ≡ after plan.now (state_of plan.now tables.old) (Gone space block) }
    ensures sized { IsSized plan.now tables.new }
{
    set_state(plan, tables, space, block, CopyState::Out);
}

/// A copy starts to come back.
pub fn call(plan: &Plan, tables: &mut Tables, space: u32, block: u32)
    requires sized { IsSized plan.now tables.old }
    requires may { MayCall plan.now (state_of plan.now tables.old) space block }
    ensures value { state_of plan.now tables.new ≡ after plan.now (state_of plan.now tables.old) (Call space block) }
    ensures sized { IsSized plan.now tables.new }
{
    set_state(plan, tables, space, block, CopyState::Coming);
}

/// A copy that was coming is in memory, and in front of the order of its space.
///
/// # Errors
/// Want of memory. The tables are as before.
pub fn come(plan: &Plan, tables: &mut Tables, space: u32, block: u32) -> Result<(), AllocError>
    requires sized { IsSized plan.now tables.old }
    requires sound { IsSound plan.now (state_of plan.now tables.old) }
    requires may { MayCome plan.now (state_of plan.now tables.old) space block }
    ensures value { OnOk result
        (state_of plan.now tables.new ≡ after plan.now (state_of plan.now tables.old) (Come space block)) }
    ensures sized { IsSized plan.now tables.new }
    ensures kept { OnErr result (state_of plan.now tables.new ≡ state_of plan.now tables.old) }
{
    // The order first: it alone can fail.
    add_front(plan, tables, space, block)?;
    set_state(plan, tables, space, block, CopyState::Here);
    Ok(())
}
