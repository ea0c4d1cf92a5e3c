//! Where a task is held, and gets copies.
ghost use Rattle.std.specs.Prelude.{◌≡◌, OnErr, OnOk};
ghost use Rattle.dd_blocks.specs.WellFormed.{IsWellFormed};
ghost use Rattle.dd_machine.specs.declared.event.Event.TheVariants.{Hold, Make};
ghost use Rattle.dd_machine.specs.Effects.{after};
ghost use Rattle.dd_machine.specs.Legal.{MayHold, MayMake};
ghost use Rattle.dd_machine.specs.Sound.{IsSound};
ghost use Rattle.dd_tables.specs.Sized.{IsSized};
ghost use Rattle.dd_tables.specs.Tables.{state_of};

use dd_blocks::Plan;
use dd_changes::{add_front, set_copy, set_task};
use dd_copies::BlockCopy;
use dd_machine::TaskState;
use dd_tables::Tables;
use dd_tables::rows::{place, size};
use std::alloc::AllocError;

/// The version of an element that was never written in a copy.
const BLANK: u32 = u32::MAX;

/// The blocks of a task are reserved in its space.
pub fn hold(plan: &Plan, tables: &mut Tables, task: u32)
    requires well { IsWellFormed plan.now }
    requires sized { IsSized plan.now tables.old }
    requires may { MayHold plan.now (state_of plan.now tables.old) task }
    ensures value { state_of plan.now tables.new ≡ after plan.now (state_of plan.now tables.old) (Hold task) }
    ensures sized { IsSized plan.now tables.new }
{
    set_task(plan, tables, task, TaskState::Held);
}

/// A held task gets a copy of a block in its space, of blank versions and in front of the order.
///
/// # Errors
/// Want of memory. The tables are as before.
pub fn make(plan: &Plan, tables: &mut Tables, task: u32, block: u32) -> Result<(), AllocError>
    requires well { IsWellFormed plan.now }
    requires sized { IsSized plan.now tables.old }
    requires sound { IsSound plan.now (state_of plan.now tables.old) }
    requires may { MayMake plan.now (state_of plan.now tables.old) task block }
    ensures value { OnOk result
        (state_of plan.now tables.new ≡ after plan.now (state_of plan.now tables.old) (Make task block)) }
    ensures sized { IsSized plan.now tables.new }
    ensures kept { OnErr result (state_of plan.now tables.new ≡ state_of plan.now tables.old) }
{
    let space = place(plan, task);
    let copy = BlockCopy::new(*tables.homes.allocator(), size(plan, block), BLANK)?;
    add_front(plan, tables, space, block)?;
    set_copy(plan, tables, space, block, Some(copy));
    Ok(())
}
