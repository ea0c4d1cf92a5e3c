//! A region opens, and ends.
ghost use Rattle.std.specs.Prelude.{◌≡◌};
ghost use Rattle.dd_blocks.specs.WellFormed.{IsWellFormed};
ghost use Rattle.dd_machine.specs.declared.event.Event.TheVariants.{Begin, Close};
ghost use Rattle.dd_machine.specs.Effects.{after};
ghost use Rattle.dd_machine.specs.Legal.{MayBegin, MayClose};
ghost use Rattle.dd_machine.specs.Sound.{IsSound};
ghost use Rattle.dd_tables.specs.Sized.{IsSized};
ghost use Rattle.dd_tables.specs.Tables.{state_of};

use crate::advance::advance;
use dd_blocks::Plan;
use dd_tables::Tables;

/// A region is opened, and its tasks wait.
pub fn begin(plan: &Plan, tables: &mut Tables, region: u32)
    requires well { IsWellFormed plan.now }
    requires sized { IsSized plan.now tables.old }
    requires may { MayBegin plan.now (state_of plan.now tables.old) region }
    ensures value { state_of plan.now tables.new ≡ after plan.now (state_of plan.now tables.old) (Begin region) }
    ensures sized { IsSized plan.now tables.new }
{
    tables.region = Some(region);
    advance(plan, tables);
}

/// The open region ends, with everything at home.
pub fn close(plan: &Plan, tables: &mut Tables, region: u32)
    requires well { IsWellFormed plan.now }
    requires sized { IsSized plan.now tables.old }
    requires sound { IsSound plan.now (state_of plan.now tables.old) }
    requires may { MayClose plan.now (state_of plan.now tables.old) region }
    ensures value { state_of plan.now tables.new ≡ after plan.now (state_of plan.now tables.old) (Close region) }
    ensures sized { IsSized plan.now tables.new }
{
    tables.region = None;
    advance(plan, tables);
}
