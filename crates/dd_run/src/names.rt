//! Statements of names and homes.
ghost use Rattle.std.specs.Prelude.{◌≡◌, ◌<◌, suc, length};
ghost use Rattle.dd_blocks.specs.declared.what.What.TheVariants.{Drop, MoveTo, Same};
ghost use Rattle.dd_blocks.specs.WellFormed.{IsWellFormed};
ghost use Rattle.dd_run.specs.Gives.{EntersRow, RunGives};
ghost use Rattle.dd_run.specs.Rows.{IsAtRow};
ghost use Rattle.laws_of_rows.specs.Rows.{next_what};

use dd_move::{drop_name, move_array, same_name};
use dd_store::Store;
use dd_table::{RunFault, Table};

/// Gives the array the name that the statement with `i` above it gives it.
pub(crate) fn same_row<D: Store>(table: &mut Table<'_, D>, i: usize, array: u32)
    requires well { IsWellFormed table.old.holding.ledger.plan.now }
    requires within { i < length table.old.holding.ledger.plan.now.statements }
    requires at { IsAtRow table.old.holding.ledger.plan.now i table.old }
    requires what { next_what table.old.holding.ledger.plan.now i ≡ Same array }
    ensures enters { EntersRow table.old.holding.ledger.plan.now i table.old table.new }
    ensures next { IsAtRow table.old.holding.ledger.plan.now (suc i) table.new }
{
    same_name(table, array);
}

/// Drops the name that the statement with `i` above it drops. With the last one the blocks are freed.
pub(crate) fn drop_row<D: Store>(table: &mut Table<'_, D>, i: usize, array: u32, last: bool)
    requires well { IsWellFormed table.old.holding.ledger.plan.now }
    requires within { i < length table.old.holding.ledger.plan.now.statements }
    requires at { IsAtRow table.old.holding.ledger.plan.now i table.old }
    requires what { next_what table.old.holding.ledger.plan.now i ≡ Drop array last }
    ensures enters { EntersRow table.old.holding.ledger.plan.now i table.old table.new }
    ensures next { IsAtRow table.old.holding.ledger.plan.now (suc i) table.new }
{
    // The table counts the names, so it knows the last one by itself.
    let _ = last;
    drop_name(table, array);
}

/// Moves the array that the statement with `i` above it moves.
pub(crate) fn move_row<D: Store>(
    table: &mut Table<'_, D>,
    i: usize,
    array: u32,
    space: u32,
) -> Result<(), RunFault>
    requires well { IsWellFormed table.old.holding.ledger.plan.now }
    requires within { i < length table.old.holding.ledger.plan.now.statements }
    requires at { IsAtRow table.old.holding.ledger.plan.now i table.old }
    requires what { next_what table.old.holding.ledger.plan.now i ≡ MoveTo array space }
    ensures gives { RunGives table.old.holding.ledger.plan.now i table.old table.new result }
{
    move_array(table, array, space)
}
