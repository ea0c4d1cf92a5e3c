ghost use Rattle.std.specs.Prelude.{◌≡◌, None, IsErrOf, IsSome, IfOk};
ghost use Rattle.dd_blocks.specs.Numbered.{IsNumberIn};
ghost use Rattle.dd_blocks.specs.WellFormed.{IsWellFormed};
ghost use Rattle.dd_core.specs.Due.{AreDue};
ghost use Rattle.dd_machine.specs.Tests.{Has, is_any};
ghost use Rattle.dd_machine.specs.Words.{IsOneOf, blocks};
ghost use Rattle.dd_meaning.specs.Text.{summed};
ghost use Rattle.dd_print.specs.Asks.{bring_one, sum_events};
ghost use Rattle.dd_print.specs.Gives.{PrintGives};
ghost use Rattle.dd_print.specs.Held.{IsTelling, block_values, list_sum, values_now};
ghost use Rattle.dd_print.specs.Writes.{WritesWhere};
ghost use Rattle.dd_statements.specs.Follows.{IsBetween, IsThere};
ghost use Rattle.dd_table.specs.Tables.{line_now, state_now};

use crate::fault::PrintFault;
use dd_io::Sink;
use dd_statements::{end_of_blocks, first_block};
use dd_store::Store;
use dd_table::Table;
use dd_text::print_sum as print_sum_of;
use std::alloc::Global;

/// Prints the sum of an array under a name. Its blocks are brought to their homes, by rising numbers.
///
/// # Errors
/// `WriteFault`, a fault of the sink, which has counted it; the kept cause; a fault of the disk, which the store has counted; and
/// want of memory. A prefix of the line was written then.
pub fn print_sum<O: Sink, D: Store>(
    alloc: Global,
    table: &mut Table<'_, D>,
    name: &[u8],
    array: u32,
    out: &mut O,
) -> Result<(), PrintFault>
    requires well { IsWellFormed table.old.holding.ledger.plan.now }
    requires array { IsNumberIn table.old.holding.ledger.plan.now.arrays array }
    requires between { table.old.cause ≡ None → IsBetween table.old }
    requires there { table.old.cause ≡ None → IsThere table.old.holding.ledger.plan.now (state_now table.old) array }
    requires due { table.old.cause ≡ None
        → AreDue table.old.holding.ledger.plan.now (state_now table.old) (sum_events table.old.holding.ledger.plan.now (state_now table.old) array) }
    ensures entries { PrintGives table.old table.new (line_now table.old) (sum_events table.old.holding.ledger.plan.now (state_now table.old) array) result }
    ensures written { WritesWhere (IsTelling table.new) (summed name.now (values_now table.old.holding.ledger.plan.now (state_now table.old) array))
        result (O.taken out.old) (O.taken out.new) (O.faults out.old) (O.faults out.new) }
    ensures unwritten { IsSome table.old.cause → O.taken out.new ≡ O.taken out.old }
{
    if let Some(cause) = table.cause() {
        return Err(cause.into());
    }
    let sum = sum_of_array(table, array)?;
    let mut line = Vec::new(alloc);
    print_sum_of(&mut line, name, &[sum], out)?;
    Ok(())
}

/// The sum of an array. It wraps.
//
// The invariant of the loop: where all is told, the sum so far is that of the blocks so far.
fn sum_of_array<D: Store>(table: &mut Table<'_, D>, array: u32) -> Result<i64, PrintFault>
    requires well { IsWellFormed table.old.holding.ledger.plan.now }
    requires array { IsNumberIn table.old.holding.ledger.plan.now.arrays array }
    requires between { IsBetween table.old }
    requires there { IsThere table.old.holding.ledger.plan.now (state_now table.old) array }
    requires due { AreDue table.old.holding.ledger.plan.now (state_now table.old) (sum_events table.old.holding.ledger.plan.now (state_now table.old) array) }
    ensures entries { PrintGives table.old table.new (line_now table.old) (sum_events table.old.holding.ledger.plan.now (state_now table.old) array) result }
    ensures no_sink { ¬ IsErrOf result PrintFault.WriteFault }
    ensures told { IsTelling table.new → IfOk result (λ sum. sum ≡ list_sum (values_now table.old.holding.ledger.plan.now (state_now table.old) array)) }
{
    let plan = table.plan();
    let mut sum = 0i64;
    for block in first_block(plan, array)..end_of_blocks(plan, array) {
        sum = sum.wrapping_add(sum_of_block(table, block)?);
    }
    Ok(sum)
}

/// The sum of a block, which is brought to its home and given up again. It wraps.
fn sum_of_block<D: Store>(table: &mut Table<'_, D>, block: u32) -> Result<i64, PrintFault>
    requires well { IsWellFormed table.old.holding.ledger.plan.now }
    requires block { IsOneOf (blocks table.old.holding.ledger.plan.now) block }
    requires between { IsBetween table.old }
    requires there { Has (state_now table.old) ((state_now table.old).homes block) block is_any }
    requires due { AreDue table.old.holding.ledger.plan.now (state_now table.old) (bring_one (state_now table.old) block) }
    ensures entries { PrintGives table.old table.new (line_now table.old) (bring_one (state_now table.old) block) result }
    ensures no_sink { ¬ IsErrOf result PrintFault.WriteFault }
    ensures told { IsTelling table.new → IfOk result (λ sum. sum ≡ list_sum (block_values table.old.holding.ledger.plan.now (state_now table.old) block)) }
{
    let space = table.core().home(block);
    table.bring(space, block)?;
    let sum = sum_of(table.values(space, block));
    table.rest();
    Ok(sum)
}

/// The sum of some numbers. It wraps.
fn sum_of(values: &[i64]) -> i64
    ensures { result ≡ list_sum values.now }
{
    let mut sum = 0i64;
    for value in values {
        sum = sum.wrapping_add(*value);
    }
    sum
}
