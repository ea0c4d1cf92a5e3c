ghost use Rattle.std.specs.Prelude.{◌≡◌, ◌<◌, ◌+◌, ◌++◌, None, IsErrOf, IsSome, length, OnOk};
ghost use Rattle.dd_blocks.specs.Grids.{block_rows, element_count};
ghost use Rattle.dd_blocks.specs.Numbered.{IsNumberIn, array_row, block_row};
ghost use Rattle.dd_blocks.specs.WellFormed.{IsWellFormed};
ghost use Rattle.dd_core.specs.Due.{AreDue};
ghost use Rattle.dd_machine.specs.Tests.{Has, is_any};
ghost use Rattle.dd_machine.specs.Words.{IsOneOf, blocks};
ghost use Rattle.dd_meaning.specs.Text.{printed};
ghost use Rattle.dd_print.specs.Asks.{bring_events, bring_one, print_events, row_blocks};
ghost use Rattle.dd_print.specs.Bands.{band_grid, band_values};
ghost use Rattle.dd_print.specs.Gives.{PrintGives};
ghost use Rattle.dd_print.specs.Held.{IsTelling, block_values, values_now};
ghost use Rattle.dd_print.specs.Writes.{WritesWhere};
ghost use Rattle.dd_statements.specs.Follows.{IsBetween, IsThere};
ghost use Rattle.dd_table.specs.Tables.{line_now, state_now};

use crate::fault::PrintFault;
use dd_blocks::Grid;
use dd_io::Sink;
use dd_store::Store;
use dd_table::Table;
use dd_text::print_array as print_values;
use std::alloc::Global;

/// What a call that prints an array needs beside the table.
#[derive(Drop)]
struct Room {
    alloc: Global,
    /// The values of one row of blocks, column by column.
    band: Vec<i64>,
    /// The text that waits to be written.
    text: Vec<u8>,
}

/// Prints an array row by row. Its blocks are brought to their homes, row by row of blocks.
///
/// # Errors
/// `WriteFault`, a fault of the sink, which has counted it; the kept cause; a fault of the disk, which the store has counted; and
/// want of memory. A prefix of the array's text was written then.
//
// The invariant of the loop: what was written so far, and what the rows of blocks that are left print, are the array's text; the
// current versions are as at the first, since bringing a block changes none; the entries due next are those of the rows left.
pub fn print_array<O: Sink, D: Store>(
    alloc: Global,
    table: &mut Table<'_, D>,
    array: u32,
    out: &mut O,
) -> Result<(), PrintFault>
    requires well { IsWellFormed table.old.holding.ledger.plan.now }
    requires array { IsNumberIn table.old.holding.ledger.plan.now.arrays array }
    requires between { table.old.cause ≡ None → IsBetween table.old }
    requires there { table.old.cause ≡ None → IsThere table.old.holding.ledger.plan.now (state_now table.old) array }
    requires due { table.old.cause ≡ None
        → AreDue table.old.holding.ledger.plan.now (state_now table.old) (print_events table.old.holding.ledger.plan.now (state_now table.old) array) }
    ensures entries { PrintGives table.old table.new (line_now table.old) (print_events table.old.holding.ledger.plan.now (state_now table.old) array) result }
    ensures written { WritesWhere (IsTelling table.new)
        (printed (array_row table.old.holding.ledger.plan.now array).grid (values_now table.old.holding.ledger.plan.now (state_now table.old) array))
        result (O.taken out.old) (O.taken out.new) (O.faults out.old) (O.faults out.new) }
    ensures unwritten { IsSome table.old.cause → O.taken out.new ≡ O.taken out.old }
{
    if let Some(cause) = table.cause() {
        return Err(cause.into());
    }
    let grid = table.plan().array(array).grid;
    let mut room = Room {
        alloc,
        band: Vec::with_capacity(
            alloc,
            grid.rows.min(grid.brows) as usize * grid.cols as usize,
        )?,
        text: Vec::new(alloc),
    };
    for i in 0..grid.rows.div_ceil(grid.brows) {
        print_row_of_blocks(table, array, i, &mut room, out)?;
    }
    Ok(())
}

/// Prints row `i`, from 0, of an array's blocks.
fn print_row_of_blocks<O: Sink, D: Store>(
    table: &mut Table<'_, D>,
    array: u32,
    i: u32,
    room: &mut Room,
    out: &mut O,
) -> Result<(), PrintFault>
    requires well { IsWellFormed table.old.holding.ledger.plan.now }
    requires array { IsNumberIn table.old.holding.ledger.plan.now.arrays array }
    requires within { i < block_rows (array_row table.old.holding.ledger.plan.now array).grid }
    requires between { IsBetween table.old }
    requires there { IsThere table.old.holding.ledger.plan.now (state_now table.old) array }
    requires due { AreDue table.old.holding.ledger.plan.now (state_now table.old)
        (bring_events (state_now table.old) (row_blocks table.old.holding.ledger.plan.now array i)) }
    ensures entries { PrintGives table.old table.new (line_now table.old) (bring_events (state_now table.old) (row_blocks table.old.holding.ledger.plan.now array i)) result }
    ensures written { WritesWhere (IsTelling table.new)
        (printed (band_grid (array_row table.old.holding.ledger.plan.now array).grid i)
        (band_values (array_row table.old.holding.ledger.plan.now array).grid i (values_now table.old.holding.ledger.plan.now (state_now table.old) array)))
        result (O.taken out.old) (O.taken out.new) (O.faults out.old) (O.faults out.new) }
{
    bring_row(table, array, i, &mut room.band)?;
    let grid = table.plan().array(array).grid;
    let band = Grid {
        rows: grid.brows.min(grid.rows - i * grid.brows),
        ..grid
    };
    print_values(room.alloc, &mut room.text, band, &room.band, out)?;
    Ok(())
}

/// Brings row `i`, from 0, of an array's blocks, and puts their values into the band. Each block has all rows of the band, so the
/// columns of the one stand behind those of the other.
//
// The invariant of the loop: the band has the values of the blocks so far, where all is told.
fn bring_row<D: Store>(
    table: &mut Table<'_, D>,
    array: u32,
    i: u32,
    band: &mut Vec<i64>,
) -> Result<(), PrintFault>
    requires well { IsWellFormed table.old.holding.ledger.plan.now }
    requires array { IsNumberIn table.old.holding.ledger.plan.now.arrays array }
    requires within { i < block_rows (array_row table.old.holding.ledger.plan.now array).grid }
    requires between { IsBetween table.old }
    requires there { IsThere table.old.holding.ledger.plan.now (state_now table.old) array }
    requires due { AreDue table.old.holding.ledger.plan.now (state_now table.old)
        (bring_events (state_now table.old) (row_blocks table.old.holding.ledger.plan.now array i)) }
    ensures entries { PrintGives table.old table.new (line_now table.old) (bring_events (state_now table.old) (row_blocks table.old.holding.ledger.plan.now array i)) result }
    ensures filled { OnOk result (length band.new.items ≡ element_count (band_grid (array_row table.old.holding.ledger.plan.now array).grid i)) }
    ensures no_sink { ¬ IsErrOf result PrintFault.WriteFault }
    ensures told { IsTelling table.new → OnOk result (band.new.items
        ≡ band_values (array_row table.old.holding.ledger.plan.now array).grid i (values_now table.old.holding.ledger.plan.now (state_now table.old) array)) }
{
    band.clear();
    let row = table.plan().array(array);
    let below = row.grid.rows.div_ceil(row.grid.brows);
    for j in 0..row.grid.cols.div_ceil(row.grid.bcols) {
        bring_block(table, row.first_block + j * below + i, band)?;
    }
    Ok(())
}

/// Brings a block to its home, adds its values to the band, and gives the block up again.
fn bring_block<D: Store>(
    table: &mut Table<'_, D>,
    block: u32,
    band: &mut Vec<i64>,
) -> Result<(), PrintFault>
    requires well { IsWellFormed table.old.holding.ledger.plan.now }
    requires block { IsOneOf (blocks table.old.holding.ledger.plan.now) block }
    requires between { IsBetween table.old }
    requires there { Has (state_now table.old) ((state_now table.old).homes block) block is_any }
    requires due { AreDue table.old.holding.ledger.plan.now (state_now table.old) (bring_one (state_now table.old) block) }
    ensures entries { PrintGives table.old table.new (line_now table.old) (bring_one (state_now table.old) block) result }
    ensures filled { OnOk result (length band.new.items ≡ length band.old.items + (block_row table.old.holding.ledger.plan.now block).size) }
    ensures no_sink { ¬ IsErrOf result PrintFault.WriteFault }
    ensures told { IsTelling table.new
        → OnOk result (band.new.items ≡ band.old.items ++ block_values table.old.holding.ledger.plan.now (state_now table.old) block) }
{
    let space = table.core().home(block);
    table.bring(space, block)?;
    band.extend_from_slice(table.values(space, block))?;
    table.rest();
    Ok(())
}
