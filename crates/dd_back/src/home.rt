//! Blocks that come home.
ghost use Rattle.std.specs.Prelude.{◌≡◌, true, None};
ghost use Rattle.dd_back.specs.Steps.{AllComeGives, ComeGives, IsAtEnd};
ghost use Rattle.dd_blocks.specs.WellFormed.{IsWellFormed};
ghost use Rattle.dd_core.specs.Stale.{is_stale};
ghost use Rattle.dd_machine.specs.Words.{IsOneOf, blocks};
ghost use Rattle.dd_table.specs.Tables.{state_now};

use crate::pulling::pull_all;
use dd_store::Store;
use dd_table::{RunFault, Table};

/// Brings each block home whose home copy lacks a version, by rising numbers.
//
// The invariant of the loop: `ComingHome`. Nothing is pinned, and the home copies of the blocks so far are current. No event that
// brings another block home makes them stale.
pub(crate) fn bring_all_home<D: Store>(table: &mut Table<'_, D>) -> Result<(), RunFault>
    requires well { IsWellFormed table.old.holding.ledger.plan.now }
    requires running { table.old.cause ≡ None }
    requires at_end { IsAtEnd table.old.holding.ledger.plan.now (state_now table.old) }
    requires no_pin { (state_now table.old).pin ≡ None }
    ensures gives { AllComeGives table.old table.new result }
{
    for i in 0..table.plan().blocks.as_slice().len() as u32 {
        bring_home(table, i + 1)?;
    }
    Ok(())
}

/// Brings a block home where its home copy lacks a version.
fn bring_home<D: Store>(table: &mut Table<'_, D>, block: u32) -> Result<(), RunFault>
    requires well { IsWellFormed table.old.holding.ledger.plan.now }
    requires block { IsOneOf (blocks table.old.holding.ledger.plan.now) block }
    requires running { table.old.cause ≡ None }
    requires at_end { IsAtEnd table.old.holding.ledger.plan.now (state_now table.old) }
    requires no_pin { (state_now table.old).pin ≡ None }
    ensures gives { ComeGives table.old table.new block result }
{
    if table.core().is_stale(table.plan(), block) {
        refresh(table, block)
    } else {
        Ok(())
    }
}

/// Makes a home copy current: it is pinned, gets what it lacks, and the pin is given up.
fn refresh<D: Store>(table: &mut Table<'_, D>, block: u32) -> Result<(), RunFault>
    requires well { IsWellFormed table.old.holding.ledger.plan.now }
    requires block { IsOneOf (blocks table.old.holding.ledger.plan.now) block }
    requires running { table.old.cause ≡ None }
    requires at_end { IsAtEnd table.old.holding.ledger.plan.now (state_now table.old) }
    requires no_pin { (state_now table.old).pin ≡ None }
    requires stale { is_stale table.old.holding.ledger.plan.now (state_now table.old) block ≡ true }
    ensures gives { ComeGives table.old table.new block result }
{
    let home = table.core().home(block);
    table.bring(home, block)?;
    pull_all(table, block)?;
    table.rest();
    Ok(())
}
