//! What a pinned home copy gets.
ghost use Rattle.std.specs.Prelude.{◌≡◌, None};
ghost use Rattle.dd_back.specs.Steps.{IsPinnedHome, PullsGive};
ghost use Rattle.dd_blocks.specs.WellFormed.{IsWellFormed};
ghost use Rattle.dd_machine.specs.Words.{IsOneOf, blocks};
ghost use Rattle.dd_table.specs.Tables.{state_now};

use dd_store::Store;
use dd_table::{RunFault, Table};

/// Brings what the pinned home copy of a block lacks, space by space.
//
// The invariant of the loop: `Pulling`. The block is pinned still, and needs nothing from the spaces so far. A Back brings all that is
// needed from its space, and makes nothing stale: so those spaces stay done.
pub(crate) fn pull_all<D: Store>(table: &mut Table<'_, D>, block: u32) -> Result<(), RunFault>
    requires well { IsWellFormed table.old.holding.ledger.plan.now }
    requires block { IsOneOf (blocks table.old.holding.ledger.plan.now) block }
    requires running { table.old.cause ≡ None }
    requires pinned { IsPinnedHome table.old.holding.ledger.plan.now (state_now table.old) block }
    ensures gives { PullsGive table.old table.new block result }
{
    for i in 0..table.plan().spaces.as_slice().len() as u32 {
        table.pull(block, i + 1)?;
    }
    Ok(())
}
