//! Copies that stand elsewhere than at home.
ghost use Rattle.std.specs.Prelude.{◌≡◌, None};
ghost use Rattle.dd_back.specs.Backs.{AllCurrent};
ghost use Rattle.dd_back.specs.Steps.{FreesAll, FreesOne, IsAtEnd, freed_at};
ghost use Rattle.dd_blocks.specs.WellFormed.{IsWellFormed};
ghost use Rattle.dd_machine.specs.Words.{IsOneOf, blocks, spaces};
ghost use Rattle.dd_table.specs.Tables.{Enters, state_now};

use dd_store::Store;
use dd_table::Table;

/// Frees every copy that isn't at its home, by rising blocks and then by rising spaces. It takes no memory.
//
// The invariant of the loop: `Freeing`. The frees so far are those of the blocks so far, which have no copy elsewhere any more; the
// other blocks have theirs.
pub(crate) fn free_others<D: Store>(table: &mut Table<'_, D>)
    requires well { IsWellFormed table.old.holding.ledger.plan.now }
    requires running { table.old.cause ≡ None }
    requires at_end { IsAtEnd table.old.holding.ledger.plan.now (state_now table.old) }
    requires no_pin { (state_now table.old).pin ≡ None }
    requires current { AllCurrent table.old.holding.ledger.plan.now (state_now table.old) }
    ensures { FreesAll table.old table.new }
{
    for i in 0..table.plan().blocks.as_slice().len() as u32 {
        free_others_of(table, i + 1);
    }
}

/// Frees the copies of a block that aren't at its home.
//
// The invariant of the loop: `FreeingOne`, of the spaces so far.
fn free_others_of<D: Store>(table: &mut Table<'_, D>, block: u32)
    requires well { IsWellFormed table.old.holding.ledger.plan.now }
    requires block { IsOneOf (blocks table.old.holding.ledger.plan.now) block }
    requires running { table.old.cause ≡ None }
    requires at_end { IsAtEnd table.old.holding.ledger.plan.now (state_now table.old) }
    requires no_pin { (state_now table.old).pin ≡ None }
    requires current { AllCurrent table.old.holding.ledger.plan.now (state_now table.old) }
    ensures { FreesOne table.old table.new block }
{
    for i in 0..table.plan().spaces.as_slice().len() as u32 {
        free_away(table, i + 1, block);
    }
}

/// Frees the copy of a block in a space, where there is one and the space isn't its home.
fn free_away<D: Store>(table: &mut Table<'_, D>, space: u32, block: u32)
    requires well { IsWellFormed table.old.holding.ledger.plan.now }
    requires block { IsOneOf (blocks table.old.holding.ledger.plan.now) block }
    requires space { IsOneOf (spaces table.old.holding.ledger.plan.now) space }
    requires running { table.old.cause ≡ None }
    requires at_end { IsAtEnd table.old.holding.ledger.plan.now (state_now table.old) }
    requires no_pin { (state_now table.old).pin ≡ None }
    requires current { AllCurrent table.old.holding.ledger.plan.now (state_now table.old) }
    ensures { Enters table.old table.new (freed_at (state_now table.old) space block) }
{
    if space != table.core().home(block) && table.core().copy(space, block).is_some() {
        table.free(space, block);
    }
}
