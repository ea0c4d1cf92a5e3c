//! A block is taken up, and let go.
ghost use Rattle.std.specs.Prelude.{◌≡◌};
ghost use Rattle.dd_blocks.specs.WellFormed.{IsWellFormed};
ghost use Rattle.dd_machine.specs.declared.event.Event.TheVariants.{Ask, Rest};
ghost use Rattle.dd_machine.specs.Effects.{after};
ghost use Rattle.dd_machine.specs.Legal.{MayAsk, MayRest};
ghost use Rattle.dd_machine.specs.Sound.{IsSound};
ghost use Rattle.dd_tables.specs.Sized.{IsSized};
ghost use Rattle.dd_tables.specs.Tables.{state_of};

use crate::advance::advance_outside;
use dd_blocks::Plan;
use dd_changes::front;
use dd_tables::Tables;

/// A statement, or the write-back, takes up a block in a space: it is pinned there.
pub fn ask(plan: &Plan, tables: &mut Tables, space: u32, block: u32)
    requires well { IsWellFormed plan.now }
    requires sized { IsSized plan.now tables.old }
    requires may { MayAsk plan.now (state_of plan.now tables.old) space block }
    ensures value { state_of plan.now tables.new ≡ after plan.now (state_of plan.now tables.old) (Ask space block) }
    ensures sized { IsSized plan.now tables.new }
{
    tables.pin = Some((space, block));
    advance_outside(plan, tables);
}

/// The pin is given up, and its block is the one used last in its space.
pub fn rest(plan: &Plan, tables: &mut Tables)
    requires well { IsWellFormed plan.now }
    requires sized { IsSized plan.now tables.old }
    requires sound { IsSound plan.now (state_of plan.now tables.old) }
    requires may { MayRest plan.now (state_of plan.now tables.old) }
    ensures value { state_of plan.now tables.new ≡ after plan.now (state_of plan.now tables.old) Rest }
    ensures sized { IsSized plan.now tables.new }
{
    let Some((space, block)) = tables.pin else {
        unreachable!();
    };
    front(plan, tables, space, block);
    tables.pin = None;
    advance_outside(plan, tables);
}
