//! Changes of copies.
ghost use Rattle.std.specs.Prelude.{◌≡◌, None};
ghost use Rattle.dd_copies.specs.CopyTables.{seen};
ghost use Rattle.dd_machine.specs.declared.copy_state.CopyState.TheVariants.{Here};
ghost use Rattle.dd_machine.specs.Effects.{given_back, in_state, set_state};
ghost use Rattle.dd_machine.specs.States.{at_copy};
ghost use Rattle.dd_machine.specs.Words.{IsOneOf, blocks, spaces};
ghost use Rattle.dd_tables.specs.Sized.{IsSized};
ghost use Rattle.dd_tables.specs.Tables.{state_of};

use dd_blocks::Plan;
use dd_copies::BlockCopy;
use dd_machine::CopyState;
use dd_tables::Tables;

/// Puts a copy into another state.
pub fn set_state(plan: &Plan, tables: &mut Tables, space: u32, block: u32, state: CopyState)
    requires sized { IsSized plan.now tables.old }
    requires space { IsOneOf (spaces plan.now) space }
    requires block { IsOneOf (blocks plan.now) block }
    ensures value { state_of plan.now tables.new ≡ set_state (state_of plan.now tables.old) space block state }
    ensures sized { IsSized plan.now tables.new }
{
    tables.copies.set_state(space, block, state);
}

/// Puts a copy into its cell, or none, in place of what is there.
pub fn set_copy(plan: &Plan, tables: &mut Tables, space: u32, block: u32, copy: Option<BlockCopy>)
    requires sized { IsSized plan.now tables.old }
    requires space { IsOneOf (spaces plan.now) space }
    requires block { IsOneOf (blocks plan.now) block }
    ensures value { let st = state_of plan.now tables.old in
        state_of plan.now tables.new ≡ record st { copies = at_copy st.copies space block (seen copy) } }
    ensures sized { IsSized plan.now tables.new }
{
    tables.copies.put(space, block, copy);
}

/// Takes a copy out of its cell, where there is one.
pub fn take_copy(plan: &Plan, tables: &mut Tables, space: u32, block: u32) -> Option<BlockCopy>
    requires sized { IsSized plan.now tables.old }
    requires space { IsOneOf (spaces plan.now) space }
    requires block { IsOneOf (blocks plan.now) block }
    ensures copy { seen result ≡ (state_of plan.now tables.old).copies space block }
    ensures value { let st = state_of plan.now tables.old in
        state_of plan.now tables.new ≡ record st { copies = at_copy st.copies space block None } }
    ensures sized { IsSized plan.now tables.new }
{
    tables.copies.take(space, block)
}

/// Moves a copy to another space, where it is in memory.
pub fn move_copy(plan: &Plan, tables: &mut Tables, from: u32, to: u32, block: u32)
    requires sized { IsSized plan.now tables.old }
    requires from { IsOneOf (spaces plan.now) from }
    requires to { IsOneOf (spaces plan.now) to }
    requires block { IsOneOf (blocks plan.now) block }
    ensures value { let st = state_of plan.now tables.old in
        state_of plan.now tables.new
        ≡ record st { copies = at_copy (at_copy st.copies from block None) to block (in_state Here (st.copies from block)) } }
    ensures sized { IsSized plan.now tables.new }
{
    tables.copies.move_to(from, to, block);
}

/// Puts a copy that was lent back: it is in its slot.
pub fn give_back(plan: &Plan, tables: &mut Tables, space: u32, block: u32)
    requires sized { IsSized plan.now tables.old }
    requires space { IsOneOf (spaces plan.now) space }
    requires block { IsOneOf (blocks plan.now) block }
    ensures value { let st = state_of plan.now tables.old in
        state_of plan.now tables.new
        ≡ record st { copies = at_copy st.copies space block (given_back (st.copies space block)) } }
    ensures sized { IsSized plan.now tables.new }
{
    tables.copies.give_back(space, block);
}
