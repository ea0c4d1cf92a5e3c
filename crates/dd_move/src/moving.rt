ghost use Rattle.std.specs.Prelude.{◌≡◌, None};
ghost use Rattle.dd_blocks.specs.Numbered.{IsNumberIn};
ghost use Rattle.dd_blocks.specs.WellFormed.{IsWellFormed};
ghost use Rattle.dd_core.specs.Due.{AreDue};
ghost use Rattle.dd_machine.specs.Words.{IsOneOf, spaces};
ghost use Rattle.dd_move.specs.Moves.{move_events};
ghost use Rattle.dd_statements.specs.Follows.{Asks, IsBetween};
ghost use Rattle.dd_table.specs.Tables.{line_now, state_now};

use dd_statements::{end_of_blocks, first_block};
use dd_store::Store;
use dd_table::{RunFault, Table};

/// Gives each block of an array its home in a space, by rising numbers, where that is another space. What the blocks hold goes along.
///
/// # Errors
/// The kept cause; a fault of the disk, which the store has counted; and want of memory. Some blocks have their new home then.
//
// The invariant of the loop: the blocks so far were seen to, and the entries of the others are due. A block that is left has the home
// that it had at the first.
pub fn move_array<D: Store>(
    table: &mut Table<'_, D>,
    array: u32,
    space: u32,
) -> Result<(), RunFault>
    requires well { IsWellFormed table.old.holding.ledger.plan.now }
    requires array { IsNumberIn table.old.holding.ledger.plan.now.arrays array }
    requires space { IsOneOf (spaces table.old.holding.ledger.plan.now) space }
    requires between { table.old.cause ≡ None → IsBetween table.old }
    requires due { table.old.cause ≡ None
        → AreDue table.old.holding.ledger.plan.now (state_now table.old) (move_events table.old.holding.ledger.plan.now (state_now table.old) array space) }
    ensures gives { Asks table.old table.new (line_now table.old) (move_events table.old.holding.ledger.plan.now (state_now table.old) array space) result }
{
    if let Some(cause) = table.cause() {
        return Err(cause);
    }
    let plan = table.plan();
    for block in first_block(plan, array)..end_of_blocks(plan, array) {
        if table.core().home(block) != space {
            table.shift(block, space)?;
        }
    }
    Ok(())
}
