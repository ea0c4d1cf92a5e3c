//! Statements that print.
ghost use Rattle.std.specs.Prelude.{◌≡◌, ◌<◌, length};
ghost use Rattle.dd_blocks.specs.declared.what.What.TheVariants.{Moved, Print, Sum};
ghost use Rattle.dd_blocks.specs.WellFormed.{IsWellFormed};
ghost use Rattle.dd_meaning.specs.Text.{row_text};
ghost use Rattle.dd_print.specs.Held.{IsTelling};
ghost use Rattle.dd_print.specs.Writes.{WritesWhere};
ghost use Rattle.dd_run.specs.Gives.{RowGives};
ghost use Rattle.dd_run.specs.Rows.{IsAtRow};
ghost use Rattle.laws_of_rows.specs.Rows.{next_what};

use dd_io::Sink;
use dd_lines::moved_line;
use dd_print::{PrintFault, print_array, print_sum};
use dd_store::Store;
use dd_table::Table;
use std::alloc::Global;

/// Prints the array that the statement with `i` above it prints.
pub(crate) fn print_row<O: Sink, D: Store>(
    alloc: Global,
    table: &mut Table<'_, D>,
    i: usize,
    array: u32,
    out: &mut O,
) -> Result<(), PrintFault>
    requires well { IsWellFormed table.old.holding.ledger.plan.now }
    requires within { i < length table.old.holding.ledger.plan.now.statements }
    requires at { IsAtRow table.old.holding.ledger.plan.now i table.old }
    requires what { next_what table.old.holding.ledger.plan.now i ≡ Print array }
    ensures gives { RowGives table.old.holding.ledger.plan.now i table.old table.new result }
    ensures written { WritesWhere (IsTelling table.new) (row_text table.old.holding.ledger.plan.now i)
        result (O.taken out.old) (O.taken out.new) (O.faults out.old) (O.faults out.new) }
{
    print_array(alloc, table, array, out)
}

/// Prints the sum that the statement with `i` above it prints.
pub(crate) fn sum_row<O: Sink, D: Store>(
    alloc: Global,
    table: &mut Table<'_, D>,
    i: usize,
    array: u32,
    name: &[u8],
    out: &mut O,
) -> Result<(), PrintFault>
    requires well { IsWellFormed table.old.holding.ledger.plan.now }
    requires within { i < length table.old.holding.ledger.plan.now.statements }
    requires at { IsAtRow table.old.holding.ledger.plan.now i table.old }
    requires what { next_what table.old.holding.ledger.plan.now i ≡ Sum array name.now }
    ensures gives { RowGives table.old.holding.ledger.plan.now i table.old table.new result }
    ensures written { WritesWhere (IsTelling table.new) (row_text table.old.holding.ledger.plan.now i)
        result (O.taken out.old) (O.taken out.new) (O.faults out.old) (O.faults out.new) }
{
    print_sum(alloc, table, name, array, out)
}

/// Prints how many elements moved above the statement with `i` above it.
pub(crate) fn moved_row<O: Sink, D: Store>(
    table: &mut Table<'_, D>,
    i: usize,
    out: &mut O,
) -> Result<(), PrintFault>
    requires well { IsWellFormed table.old.holding.ledger.plan.now }
    requires within { i < length table.old.holding.ledger.plan.now.statements }
    requires at { IsAtRow table.old.holding.ledger.plan.now i table.old }
    requires what { next_what table.old.holding.ledger.plan.now i ≡ Moved }
    ensures gives { RowGives table.old.holding.ledger.plan.now i table.old table.new result }
    ensures written { WritesWhere (IsTelling table.new) (row_text table.old.holding.ledger.plan.now i)
        result (O.taken out.old) (O.taken out.new) (O.faults out.old) (O.faults out.new) }
{
    Ok(moved_line(table.moved(), out)?)
}
