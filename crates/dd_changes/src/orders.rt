//! Changes of orders.
ghost use Rattle.std.specs.Prelude.{◌≡◌, false, true, OnErr, OnOk};
ghost use Rattle.dd_machine.specs.Effects.{order_front, order_without};
ghost use Rattle.dd_machine.specs.Sound.{IsSound};
ghost use Rattle.dd_machine.specs.Words.{IsOneOf, has_number, spaces};
ghost use Rattle.dd_tables.specs.Sized.{IsSized};
ghost use Rattle.dd_tables.specs.Tables.{state_of};

use dd_blocks::Plan;
use dd_tables::Tables;
use std::alloc::AllocError;

/// Brings a block of the order of a space to its front, as it is used.
pub fn front(plan: &Plan, tables: &mut Tables, space: u32, block: u32)
    requires sized { IsSized plan.now tables.old }
    requires space { IsOneOf (spaces plan.now) space }
    requires there { has_number ((state_of plan.now tables.old).orders space) block ≡ true }
    ensures value { let st = state_of plan.now tables.old in
        state_of plan.now tables.new ≡ record st { orders = order_front st.orders space block } }
    ensures sized { IsSized plan.now tables.new }
{
    tables.orders[space as usize - 1].touch(block);
}

/// Adds a block that isn't in the order of a space at its front.
///
/// # Errors
/// Want of memory. The tables are as before.
pub fn add_front(plan: &Plan, tables: &mut Tables, space: u32, block: u32) -> Result<(), AllocError>
    requires sized { IsSized plan.now tables.old }
    requires sound { IsSound plan.now (state_of plan.now tables.old) }
    requires space { IsOneOf (spaces plan.now) space }
    requires absent { has_number ((state_of plan.now tables.old).orders space) block ≡ false }
    ensures value { let st = state_of plan.now tables.old in
        OnOk result (state_of plan.now tables.new ≡ record st { orders = order_front st.orders space block }) }
    ensures sized { IsSized plan.now tables.new }
    ensures kept { OnErr result (state_of plan.now tables.new ≡ state_of plan.now tables.old) }
{
    tables.orders[space as usize - 1].add(block)
}

/// Takes a block out of the order of a space, where it is there.
pub fn without(plan: &Plan, tables: &mut Tables, space: u32, block: u32)
    requires sized { IsSized plan.now tables.old }
    requires space { IsOneOf (spaces plan.now) space }
    ensures value { let st = state_of plan.now tables.old in
        state_of plan.now tables.new ≡ record st { orders = order_without st.orders space block } }
    ensures sized { IsSized plan.now tables.new }
{
    tables.orders[space as usize - 1].take(block);
}
