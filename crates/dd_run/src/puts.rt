//! An array that is made.
ghost use Rattle.std.specs.Prelude.{◌≡◌, ◌<◌, length};
ghost use Rattle.dd_blocks.specs.declared.what.What.TheVariants.{Put};
ghost use Rattle.dd_blocks.specs.Numbered.{IsNumberIn};
ghost use Rattle.dd_blocks.specs.WellFormed.{IsWellFormed};
ghost use Rattle.dd_core.specs.Due.{AreDue};
ghost use Rattle.dd_run.specs.Gives.{RunGives};
ghost use Rattle.dd_run.specs.Puts.{put_events};
ghost use Rattle.dd_run.specs.Rows.{IsAtRow};
ghost use Rattle.dd_statements.specs.Follows.{Asks, IsBetween};
ghost use Rattle.dd_table.specs.Tables.{line_now, state_now};
ghost use Rattle.laws_of_rows.specs.Rows.{next_what};

use dd_move::same_name;
use dd_statements::{end_of_blocks, first_block};
use dd_store::Store;
use dd_table::{RunFault, Table};

/// Makes the array that the statement with `i` above it makes: its blocks at their homes, and its first name.
pub(crate) fn put_row<D: Store>(
    table: &mut Table<'_, D>,
    i: usize,
    array: u32,
) -> Result<(), RunFault>
    requires well { IsWellFormed table.old.holding.ledger.plan.now }
    requires within { i < length table.old.holding.ledger.plan.now.statements }
    requires at { IsAtRow table.old.holding.ledger.plan.now i table.old }
    requires what { next_what table.old.holding.ledger.plan.now i ≡ Put array }
    ensures gives { RunGives table.old.holding.ledger.plan.now i table.old table.new result }
{
    put_blocks(table, array)?;
    same_name(table, array);
    Ok(())
}

/// Puts the blocks of an array, by rising numbers.
//
// The invariant of the loop: the blocks so far were put, and the entries of the others are due.
fn put_blocks<D: Store>(table: &mut Table<'_, D>, array: u32) -> Result<(), RunFault>
    requires well { IsWellFormed table.old.holding.ledger.plan.now }
    requires array { IsNumberIn table.old.holding.ledger.plan.now.arrays array }
    requires between { IsBetween table.old }
    requires due { AreDue table.old.holding.ledger.plan.now (state_now table.old) (put_events table.old.holding.ledger.plan.now (state_now table.old) array) }
    ensures gives { Asks table.old table.new (line_now table.old) (put_events table.old.holding.ledger.plan.now (state_now table.old) array) result }
{
    let plan = table.plan();
    for block in first_block(plan, array)..end_of_blocks(plan, array) {
        table.put_block(block)?;
    }
    Ok(())
}
