ghost use Rattle.std.specs.Prelude.{◌≡◌, ◌+◌, ◌≤◌, Some};
ghost use Rattle.dd_blocks.specs.WellFormed.{IsWellFormed};
ghost use Rattle.dd_causes.specs.Counts.{Rose};
ghost use Rattle.dd_table.specs.declared.fault.RunFault.TheVariants.{DiskFault};
ghost use Rattle.dd_table.specs.Counts.{pick_count};
ghost use Rattle.dd_table.specs.Tables.{state_now};

use dd_machine::Entry;
use dd_store::Store;
use dd_table::Table;

/// Ends a run and all of its slots. It gives the entries, how many elements moved, and the store.
pub fn close<D: Store>(table: Table<'_, D>) -> (Vec<Entry>, u64, D)
    requires well { IsWellFormed table.holding.ledger.plan.now }
    ensures journal { result.0.items ≡ table.entry.holding.ledger.journal.items }
    ensures moved { result.1 ≡ (state_now table.entry).moved }
    ensures made { D.made result.2 ≡ D.made table.entry.opening.value + pick_count table.entry.holding.ledger.journal.items }
    ensures later { D.faults table.entry.store ≤ D.faults result.2 }
    ensures disk { table.entry.cause ≡ Some DiskFault → Rose (D.faults table.entry.opening.value) (D.faults result.2) }
{
    table.end()
}
