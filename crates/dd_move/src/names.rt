ghost use Rattle.std.specs.Prelude.{◌≡◌, ◌+◌, ◌-◌, ◌^◌, ◌<◌, ◌≤◌, None};
ghost use Rattle.dd_blocks.specs.Numbered.{IsNumberIn};
ghost use Rattle.dd_blocks.specs.WellFormed.{IsWellFormed};
ghost use Rattle.dd_core.specs.Due.{AreDue};
ghost use Rattle.dd_move.specs.Names.{Drops, free_events};
ghost use Rattle.dd_pool.specs.Pools.{HasNames, names_of};
ghost use Rattle.dd_statements.specs.Follows.{IsBetween, IsThere};
ghost use Rattle.dd_table.specs.Tables.{Enters, Renames, state_now};

use dd_statements::{end_of_blocks, first_block};
use dd_store::Store;
use dd_table::Table;

/// Gives an array a name. It takes no memory.
pub fn same_name<D: Store>(table: &mut Table<'_, D>, array: u32)
    requires array { IsNumberIn table.old.holding.ledger.plan.now.arrays array }
    requires fewer { names_of table.old.holding.pool array < 2 ^ 32 - 1 }
    ensures names { HasNames table.old.holding.pool table.new.holding.pool array (names_of table.old.holding.pool array + 1) }
    ensures same { Renames table.old table.new }
{
    table.share(array);
}

/// Takes a name of an array off. With the last one its blocks are freed, by rising numbers. It takes no memory.
pub fn drop_name<D: Store>(table: &mut Table<'_, D>, array: u32)
    requires well { IsWellFormed table.old.holding.ledger.plan.now }
    requires array { IsNumberIn table.old.holding.ledger.plan.now.arrays array }
    requires between { IsBetween table.old }
    requires named { 1 ≤ names_of table.old.holding.pool array }
    requires there { names_of table.old.holding.pool array ≡ 1 → IsThere table.old.holding.ledger.plan.now (state_now table.old) array }
    requires due { names_of table.old.holding.pool array ≡ 1
        → AreDue table.old.holding.ledger.plan.now (state_now table.old) (free_events table.old.holding.ledger.plan.now (state_now table.old) array) }
    ensures drops { Drops table.old table.new array }
{
    if table.release(array) == 0 {
        free_array(table, array);
    }
}

/// Frees the home copies of an array's blocks, by rising numbers.
//
// The invariant of the loop: the blocks so far were freed, and the frees of the others are due; these have their home copies.
fn free_array<D: Store>(table: &mut Table<'_, D>, array: u32)
    requires well { IsWellFormed table.old.holding.ledger.plan.now }
    requires array { IsNumberIn table.old.holding.ledger.plan.now.arrays array }
    requires between { IsBetween table.old }
    requires there { IsThere table.old.holding.ledger.plan.now (state_now table.old) array }
    requires due { AreDue table.old.holding.ledger.plan.now (state_now table.old) (free_events table.old.holding.ledger.plan.now (state_now table.old) array) }
    ensures { Enters table.old table.new (free_events table.old.holding.ledger.plan.now (state_now table.old) array) }
{
    let plan = table.plan();
    for block in first_block(plan, array)..end_of_blocks(plan, array) {
        let space = table.core().home(block);
        table.free(space, block);
    }
}
