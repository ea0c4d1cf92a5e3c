//! One statement.
ghost use Rattle.std.specs.Prelude.{◌<◌, length};
ghost use Rattle.dd_blocks.specs.WellFormed.{IsWellFormed};
ghost use Rattle.dd_meaning.specs.Text.{row_text};
ghost use Rattle.dd_print.specs.Held.{IsTelling};
ghost use Rattle.dd_print.specs.Writes.{WritesWhere};
ghost use Rattle.dd_run.specs.Gives.{RowGives};
ghost use Rattle.dd_run.specs.Rows.{IsAtRow};

use crate::names::{drop_row, move_row, same_row};
use crate::prints::{moved_row, print_row, sum_row};
use crate::puts::put_row;
use crate::region::run_region;
use dd_blocks::What;
use dd_io::Sink;
use dd_print::PrintFault;
use dd_store::Store;
use dd_table::Table;
use std::alloc::Global;

/// Runs the statement that has `i` above it.
pub(crate) fn run_row<O: Sink, D: Store>(
    alloc: Global,
    table: &mut Table<'_, D>,
    i: usize,
    out: &mut O,
) -> Result<(), PrintFault>
    requires well { IsWellFormed table.old.holding.ledger.plan.now }
    requires within { i < length table.old.holding.ledger.plan.now.statements }
    requires at { IsAtRow table.old.holding.ledger.plan.now i table.old }
    ensures gives { RowGives table.old.holding.ledger.plan.now i table.old table.new result }
    ensures written { WritesWhere (IsTelling table.new) (row_text table.old.holding.ledger.plan.now i)
        result (O.taken out.old) (O.taken out.new) (O.faults out.old) (O.faults out.new) }
{
    let plan = table.plan();
    match &plan.statements.as_slice()[i].what {
        What::Put(array) => Ok(put_row(table, i, *array)?),
        What::Print(array) => print_row(alloc, table, i, *array, out),
        What::Sum { array, name } => sum_row(alloc, table, i, *array, name.as_bytes(), out),
        What::Moved => moved_row(table, i, out),
        What::Same(array) => {
            same_row(table, i, *array);
            Ok(())
        }
        What::Drop { array, last } => {
            drop_row(table, i, *array, *last);
            Ok(())
        }
        What::MoveTo { array, space } => Ok(move_row(table, i, *array, *space)?),
        What::Region(region) => Ok(run_region(table, i, *region)?),
    }
}
