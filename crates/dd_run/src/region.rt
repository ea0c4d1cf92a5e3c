//! A region.
ghost use Rattle.std.specs.Prelude.{◌≡◌, ◌<◌, None, IsSome, length};
ghost use Rattle.dd_blocks.specs.declared.what.What.TheVariants.{Region};
ghost use Rattle.dd_blocks.specs.WellFormed.{IsWellFormed};
ghost use Rattle.dd_run.specs.Gives.{RunGives, RunsTasks};
ghost use Rattle.dd_run.specs.Rows.{IsAtRow};
ghost use Rattle.dd_table.specs.Outs.{HasNothingOut};
ghost use Rattle.dd_table.specs.Tables.{state_now};
ghost use Rattle.laws_of_rows.specs.Rows.{next_what};

use dd_back::write_back;
use dd_store::Store;
use dd_table::{RunFault, RunWork, Table, Took};

/// The one worker.
const WORKER: u32 = 1;

/// Runs the region that the statement with `i` above it runs: its tasks, and then the write-back.
pub(crate) fn run_region<D: Store>(
    table: &mut Table<'_, D>,
    i: usize,
    region: u32,
) -> Result<(), RunFault>
    requires well { IsWellFormed table.old.holding.ledger.plan.now }
    requires within { i < length table.old.holding.ledger.plan.now.statements }
    requires at { IsAtRow table.old.holding.ledger.plan.now i table.old }
    requires what { next_what table.old.holding.ledger.plan.now i ≡ Region region }
    ensures gives { RunGives table.old.holding.ledger.plan.now i table.old table.new result }
{
    table.begin(region)?;
    run_tasks(table)?;
    write_back(table)
}

/// Runs the tasks of the open region, one after another, until every one is done.
//
// The invariant of the loop: the region is open without a pin, no cause is kept, nothing is out, and the new entries lead tasks on, claim
// them for the one worker or finish them. The tasks that aren't done get fewer with each turn.
fn run_tasks<D: Store>(table: &mut Table<'_, D>) -> Result<(), RunFault>
    requires well { IsWellFormed table.old.holding.ledger.plan.now }
    requires running { table.old.cause ≡ None }
    requires no_pin { (state_now table.old).pin ≡ None }
    requires none_out { HasNothingOut (state_now table.old) }
    requires open { IsSome (state_now table.old).region }
    ensures gives { RunsTasks table.old table.new result }
{
    loop {
        match table.next(WORKER) {
            Took::Work(mut work) => {
                work.run();
                table.finish(work);
            }
            Took::AllDone => return Ok(()),
            Took::DiskFault => return Err(RunFault::DiskFault),
            Took::Memory => return Err(RunFault::Memory),
            // No cause was kept before, and the worker itself runs nothing.
            Took::Stopped => unreachable!(),
            Took::Idle { .. } => unreachable!(),
        }
    }
}
