//! The end of a region.
ghost use Rattle.std.specs.Prelude.{◌≡◌, ℕ, None, OnOk};
ghost use Rattle.dd_back.specs.Backs.{WriteBackGives};
ghost use Rattle.dd_back.specs.Steps.{IsAtEnd};
ghost use Rattle.dd_blocks.specs.WellFormed.{IsWellFormed};
ghost use Rattle.dd_machine.specs.Owed.{one_more};
ghost use Rattle.dd_machine.specs.Tests.{Has, is_any};
ghost use Rattle.dd_table.specs.Tables.{state_now};

use crate::home::bring_all_home;
use crate::others::free_others;
use dd_store::Store;
use dd_table::{RunFault, Table};

/// Brings every block home with its current versions, frees all other copies, and ends the open region. Every task of it is done.
///
/// # Errors
/// The kept cause; a fault of the disk, which the store has counted; and want of memory. The region stays open then.
pub fn write_back<D: Store>(table: &mut Table<'_, D>) -> Result<(), RunFault>
    requires well { IsWellFormed table.old.holding.ledger.plan.now }
    requires at_end { table.old.cause ≡ None → IsAtEnd table.old.holding.ledger.plan.now (state_now table.old) }
    requires no_pin { table.old.cause ≡ None → (state_now table.old).pin ≡ None }
    ensures gives { WriteBackGives table.old table.new result }

    // What the caller goes on from.
    ensures closed { OnOk result ((state_now table.new).region ≡ None) }
    ensures unpinned { OnOk result ((state_now table.new).pin ≡ None) }
    ensures progress { OnOk result ((state_now table.new).progress ≡ one_more table.old.holding.ledger.plan.now (state_now table.old).progress) }
    ensures tasks { OnOk result ((state_now table.new).tasks ≡ (state_now table.old).tasks) }
    ensures homes { OnOk result ((state_now table.new).homes ≡ (state_now table.old).homes) }
    ensures at_home { OnOk result ((s b : ℕ) → Has (state_now table.new) s b is_any → (state_now table.new).homes b ≡ s) }
{
    if let Some(cause) = table.cause() {
        return Err(cause);
    }
    bring_all_home(table)?;
    free_others(table);
    table.close_region();
    Ok(())
}
