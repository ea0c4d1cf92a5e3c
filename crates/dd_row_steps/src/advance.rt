//! The position of the statements, one entry on.
ghost use Rattle.std.specs.Prelude.{◌≡◌, IsSome, None};
ghost use Rattle.dd_blocks.specs.WellFormed.{IsWellFormed};
ghost use Rattle.dd_machine.specs.Effects.{on_outside};
ghost use Rattle.dd_machine.specs.Owed.{left, next_entry, one_more};
ghost use Rattle.dd_tables.specs.Sized.{IsSized};
ghost use Rattle.dd_tables.specs.Tables.{state_of};

use dd_blocks::Plan;
use dd_owed::{next_entry, one_more};
use dd_tables::Tables;

/// One more entry of the statements was made.
pub(crate) fn advance(plan: &Plan, tables: &mut Tables)
    requires well { IsWellFormed plan.now }
    requires sized { IsSized plan.now tables.old }
    requires due { IsSome (next_entry (left plan.now (state_of plan.now tables.old).progress)) }
    ensures value { let st = state_of plan.now tables.old in
        state_of plan.now tables.new ≡ record st { progress = one_more plan.now st.progress } }
    ensures sized { IsSized plan.now tables.new }
{
    let (row, made) = one_more(plan, tables.row, tables.made);
    tables.row = row;
    tables.made = made;
    tables.next = next_entry(plan, row, made);
}

/// Outside a region one more entry of the statements was made.
pub(crate) fn advance_outside(plan: &Plan, tables: &mut Tables)
    requires well { IsWellFormed plan.now }
    requires sized { IsSized plan.now tables.old }
    requires due { (state_of plan.now tables.old).region ≡ None
        → IsSome (next_entry (left plan.now (state_of plan.now tables.old).progress)) }
    ensures value { let st = state_of plan.now tables.old in
        state_of plan.now tables.new ≡ record st { progress = on_outside plan.now st } }
    ensures sized { IsSized plan.now tables.new }
{
    match tables.region {
        None => advance(plan, tables),
        Some(_) => {}
    }
}
