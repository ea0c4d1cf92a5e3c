//! A block is made at its home, gets another home, and goes.
ghost use Rattle.std.specs.Prelude.{◌≡◌, OnErr, OnOk};
ghost use Rattle.dd_blocks.specs.WellFormed.{IsWellFormed};
ghost use Rattle.dd_machine.specs.declared.event.Event.TheVariants.{Free, Put, Shift};
ghost use Rattle.dd_machine.specs.Effects.{after};
ghost use Rattle.dd_machine.specs.Legal.{MayFree, MayPut, MayShift};
ghost use Rattle.dd_machine.specs.Sound.{IsSound};
ghost use Rattle.dd_machine.specs.States.{at_one};
ghost use Rattle.dd_machine.specs.Words.{IsOneOf, blocks};
ghost use Rattle.dd_tables.specs.Sized.{IsSized};
ghost use Rattle.dd_tables.specs.Tables.{state_of};

use crate::advance::{advance, advance_outside};
use dd_blocks::Plan;
use dd_changes::{add_front, move_copy, set_copy, without};
use dd_copies::BlockCopy;
use dd_tables::Tables;
use dd_tables::rows::size;
use std::alloc::AllocError;

/// The pinned block is made at its home, of version 0.
///
/// # Errors
/// Want of memory. The tables are as before.
pub fn put(plan: &Plan, tables: &mut Tables, block: u32) -> Result<(), AllocError>
    requires well { IsWellFormed plan.now }
    requires sized { IsSized plan.now tables.old }
    requires sound { IsSound plan.now (state_of plan.now tables.old) }
    requires may { MayPut plan.now (state_of plan.now tables.old) block }
    ensures value { OnOk result
        (state_of plan.now tables.new ≡ after plan.now (state_of plan.now tables.old) (Put block)) }
    ensures sized { IsSized plan.now tables.new }
    ensures kept { OnErr result (state_of plan.now tables.new ≡ state_of plan.now tables.old) }
{
    let home = tables.home_of(block);
    let copy = BlockCopy::new(*tables.homes.allocator(), size(plan, block), 0)?;
    add_front(plan, tables, home, block)?;
    set_copy(plan, tables, home, block, Some(copy));
    advance(plan, tables);
    Ok(())
}

/// The pinned block gets its home in another space, with its copy.
///
/// # Errors
/// Want of memory. The tables are as before.
pub fn shift(plan: &Plan, tables: &mut Tables, block: u32, space: u32) -> Result<(), AllocError>
    requires well { IsWellFormed plan.now }
    requires sized { IsSized plan.now tables.old }
    requires sound { IsSound plan.now (state_of plan.now tables.old) }
    requires may { MayShift plan.now (state_of plan.now tables.old) block space }
    ensures value { OnOk result
        (state_of plan.now tables.new ≡ after plan.now (state_of plan.now tables.old) (Shift block space)) }
    ensures sized { IsSized plan.now tables.new }
    ensures kept { OnErr result (state_of plan.now tables.new ≡ state_of plan.now tables.old) }
{
    let home = tables.home_of(block);
    // The order of the new home first: it alone may want memory.
    add_front(plan, tables, space, block)?;
    without(plan, tables, home, block);
    move_copy(plan, tables, home, space, block);
    set_home(plan, tables, block, space);
    advance(plan, tables);
    Ok(())
}

/// A block gets another home.
fn set_home(plan: &Plan, tables: &mut Tables, block: u32, space: u32)
    requires sized { IsSized plan.now tables.old }
    requires block { IsOneOf (blocks plan.now) block }
    ensures value { let st = state_of plan.now tables.old in
        state_of plan.now tables.new ≡ record st { homes = at_one st.homes block space } }
    ensures sized { IsSized plan.now tables.new }
{
    tables.homes[block as usize - 1] = space;
}

/// A copy goes: the home copy of an array that is dropped, or another one at the end of a region.
pub fn free(plan: &Plan, tables: &mut Tables, space: u32, block: u32)
    requires well { IsWellFormed plan.now }
    requires sized { IsSized plan.now tables.old }
    requires may { MayFree plan.now (state_of plan.now tables.old) space block }
    ensures value { state_of plan.now tables.new ≡ after plan.now (state_of plan.now tables.old) (Free space block) }
    ensures sized { IsSized plan.now tables.new }
{
    set_copy(plan, tables, space, block, None);
    without(plan, tables, space, block);
    advance_outside(plan, tables);
}
