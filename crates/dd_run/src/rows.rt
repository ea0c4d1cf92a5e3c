//! The statements in their order.
ghost use Rattle.std.specs.Prelude.{◌≡◌, ◌<◌, [], true, length};
ghost use Rattle.dd_blocks.specs.Lines.{LinesRise};
ghost use Rattle.dd_blocks.specs.WellFormed.{IsWellFormed};
ghost use Rattle.dd_print.specs.Held.{IsTelling};
ghost use Rattle.dd_print.specs.Writes.{WritesWhere};
ghost use Rattle.dd_run.specs.Gives.{RowGives, RowsGive};
ghost use Rattle.dd_run.specs.Rows.{IsAtRow};
ghost use Rattle.dd_run.specs.Texts.{CountsWrites, row_part};
ghost use Rattle.laws_of_rows.specs.Texts.{HasNoneFrom};

use crate::row::run_row;
use dd_io::Sink;
use dd_lines::write_entries;
use dd_print::PrintFault;
use dd_store::Store;
use dd_table::Table;
use std::alloc::Global;

/// Runs all statements.
//
// The invariant of the loop: the table is at row i; what was written so far, where all is told, are the parts of the first i rows by
// the journal so far, since entries of later rows have later lines; the sink has counted nothing; every Claim names the one worker.
pub(crate) fn run_rows<O: Sink, D: Store>(
    alloc: Global,
    table: &mut Table<'_, D>,
    journal: bool,
    out: &mut O,
) -> Result<(), PrintFault>
    requires well { IsWellFormed table.old.holding.ledger.plan.now }
    requires lines { journal ≡ true → LinesRise table.old.holding.ledger.plan.now }
    requires begun { IsAtRow table.old.holding.ledger.plan.now 0 table.old }
    requires empty { table.old.holding.ledger.journal.items ≡ [] }
    ensures gives { RowsGive table.old.holding.ledger.plan.now journal table.old table.new result (O.taken out.old) (O.taken out.new) }
    ensures writes { CountsWrites result (O.faults out.old) (O.faults out.new) }
{
    let rows = table.plan().statements.as_slice();
    for i in 0..rows.len() {
        run_logged(alloc, table, i, journal, out)?;
    }
    Ok(())
}

/// Runs the statement that has `i` above it. With `journal` the lines of its entries follow what it prints.
fn run_logged<O: Sink, D: Store>(
    alloc: Global,
    table: &mut Table<'_, D>,
    i: usize,
    journal: bool,
    out: &mut O,
) -> Result<(), PrintFault>
    requires well { IsWellFormed table.old.holding.ledger.plan.now }
    requires lines { journal ≡ true → LinesRise table.old.holding.ledger.plan.now }
    requires within { i < length table.old.holding.ledger.plan.now.statements }
    requires at { IsAtRow table.old.holding.ledger.plan.now i table.old }
    requires none { journal ≡ true → HasNoneFrom table.old.holding.ledger.plan.now i table.old.holding.ledger.journal.items }
    ensures gives { RowGives table.old.holding.ledger.plan.now i table.old table.new result }
    ensures written { WritesWhere (IsTelling table.new) (row_part table.old.holding.ledger.plan.now journal table.new.holding.ledger.journal.items i)
        result (O.taken out.old) (O.taken out.new) (O.faults out.old) (O.faults out.new) }
{
    let before = table.journal().len();
    run_row(alloc, table, i, out)?;
    if journal {
        write_entries(&table.journal().as_slice()[before..], out)?;
    }
    Ok(())
}
