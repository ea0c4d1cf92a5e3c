//! Rows of an array, many of them written together.
ghost use Rattle.std.specs.Prelude.{◌≡◌, ℕ, ◌+◌, ◌*◌, ◌<◌, ◌≤◌, ◌∷◌, ◌++◌, Bool, [], length, OnOk, if◌then◌else◌};
ghost use Rattle.std.specs.Fmt.{signed_decimal};
ghost use Rattle.dd_blocks.specs.Grids.{element_count};
ghost use Rattle.dd_kernels.specs.Lists.{element};
ghost use Rattle.dd_meaning.specs.Text.{printed_row, printed};
ghost use Rattle.dd_text.specs.Writes.{Writes, WritesAllBut};

use crate::fault::PrintFault;
use dd_blocks::Grid;
use dd_io::{Sink, write_all};
use itoa::Buffer;
use std::alloc::AllocError;

/// Adds a number to a line, behind a space unless it is the first.
fn push_number(
    line: &mut Vec<u8>,
    is_first: bool,
    values: &[i64],
    at: usize,
) -> Result<(), AllocError>
    requires { at < length values.now }
    ensures { OnOk result (line.new.items
        ≡ line.old.items ++ ((if is_first then [] else (32 ∷ [])) ++ signed_decimal (element values.now at))) }
{
    if !is_first {
        line.push(b' ')?;
    }
    let mut buffer = Buffer::new();
    line.extend_from_slice(buffer.format(values[at]).as_bytes())
}

/// Adds row `i`, from 0, of an array to a line, with its line feed.
fn push_row(line: &mut Vec<u8>, grid: Grid, values: &[i64], i: u32) -> Result<(), AllocError>
    requires within { i < grid.rows }
    requires filled { length values.now ≡ element_count grid }
    ensures { OnOk result (line.new.items ≡ line.old.items ++ printed_row grid values.now i) }
{
    for j in 0..grid.cols {
        let at = j as usize * grid.rows as usize + i as usize;
        push_number(line, j == 0, values, at)?;
    }
    line.push(b'\n')?;
    Ok(())
}

/// How many bytes of rows are enough to be written together.
const ENOUGH: usize = 65_536;

/// Writes the rows that wait, and none waits then.
pub(crate) fn write_rows<O: Sink>(rows: &mut Vec<u8>, out: &mut O) -> Result<(), PrintFault>
    ensures written { Writes rows.old.items result (O.taken out.old) (O.taken out.new) (O.faults out.old) (O.faults out.new) }
    ensures none { OnOk result (rows.new.items ≡ []) }
{
    write_all(out, rows)?;
    rows.clear();
    Ok(())
}

/// Adds row `i`, from 0, of an array to the rows that wait, and writes these where they are enough.
fn print_row<O: Sink>(
    rows: &mut Vec<u8>,
    grid: Grid,
    values: &[i64],
    i: u32,
    out: &mut O,
) -> Result<(), PrintFault>
    requires within { i < grid.rows }
    requires filled { length values.now ≡ element_count grid }
    ensures { WritesAllBut rows.new.items (rows.old.items ++ printed_row grid values.now i)
        result (O.taken out.old) (O.taken out.new) (O.faults out.old) (O.faults out.new) }
{
    push_row(rows, grid, values, i)?;
    if rows.len() < ENOUGH {
        return Ok(());
    }
    write_rows(rows, out)
}

/// Adds all rows of an array to the rows that wait, and writes these where they are enough.
pub(crate) fn print_rows<O: Sink>(
    rows: &mut Vec<u8>,
    grid: Grid,
    values: &[i64],
    out: &mut O,
) -> Result<(), PrintFault>
    requires { length values.now ≡ element_count grid }
    ensures { WritesAllBut rows.new.items (rows.old.items ++ printed grid values.now)
        result (O.taken out.old) (O.taken out.new) (O.faults out.old) (O.faults out.new) }
{
    for i in 0..grid.rows {
        print_row(rows, grid, values, i, out)?;
    }
    Ok(())
}
