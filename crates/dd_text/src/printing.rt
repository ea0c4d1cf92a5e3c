//! What is printed: arrays by many rows together, sums and moved elements by a line, each by one `write_all`.
ghost use Rattle.std.specs.Prelude.{◌≡◌, ℕ, ◌<◌, ◌≤◌, ◌∷◌, ◌++◌, [], length, codes, OnOk};
ghost use Rattle.std.specs.Fmt.{decimal, signed_decimal};
ghost use Rattle.dd_blocks.specs.Grids.{element_count};
ghost use Rattle.dd_kernels.specs.Lists.{element, sum_below, wrapped};
ghost use Rattle.dd_meaning.specs.Text.{printed, summed, moved_line};
ghost use Rattle.dd_text.specs.Writes.{Writes};

use crate::band::print_bands;
use crate::fault::PrintFault;
use crate::row::write_rows;
use dd_blocks::Grid;
use dd_io::{Sink, write_all};
use itoa::Buffer;
use std::alloc::{AllocError, Global};

/// Writes an array row by row, many rows together. `rows` is only room for them.
pub fn print_array<O: Sink>(
    alloc: Global,
    rows: &mut Vec<u8>,
    grid: Grid,
    values: &[i64],
    out: &mut O,
) -> Result<(), PrintFault>
    requires { length values.now ≡ element_count grid }
    ensures { Writes (printed grid values.now) result (O.taken out.old) (O.taken out.new) (O.faults out.old) (O.faults out.new) }
{
    rows.clear();
    let mut band = Vec::new(alloc);
    print_bands(rows, &mut band, grid, values, out)?;
    write_rows(rows, out)
}

/// The sum of an array. It wraps.
fn sum_of(values: &[i64]) -> i64
    ensures { result ≡ wrapped (sum_below (length values.now) (element values.now)) }
{
    let mut sum = 0i64;
    for value in values {
        sum = sum.wrapping_add(*value);
    }
    sum
}

/// Puts the line of a sum into a line's room.
fn put_sum(line: &mut Vec<u8>, name: &[u8], values: &[i64]) -> Result<(), AllocError>
    ensures { OnOk result (line.new.items ≡ summed name.now values.now) }
{
    line.clear();
    line.extend_from_slice(b"sum ")?;
    line.extend_from_slice(name)?;
    line.push(b' ')?;
    let mut buffer = Buffer::new();
    line.extend_from_slice(buffer.format(sum_of(values)).as_bytes())?;
    line.push(b'\n')?;
    Ok(())
}

/// Writes the sum of an array under a name.
pub fn print_sum<O: Sink>(
    line: &mut Vec<u8>,
    name: &[u8],
    values: &[i64],
    out: &mut O,
) -> Result<(), PrintFault>
    ensures { Writes (summed name.now values.now) result (O.taken out.old) (O.taken out.new) (O.faults out.old) (O.faults out.new) }
{
    put_sum(line, name, values)?;
    write_all(out, line)?;
    Ok(())
}

/// Puts the line of the moved elements into a line's room.
fn put_moved(line: &mut Vec<u8>, moved: u64) -> Result<(), AllocError>
    ensures { OnOk result (line.new.items ≡ moved_line moved) }
{
    line.clear();
    line.extend_from_slice(b"moved ")?;
    let mut buffer = Buffer::new();
    line.extend_from_slice(buffer.format(moved).as_bytes())?;
    line.push(b'\n')?;
    Ok(())
}

/// Writes how many elements were moved so far.
pub fn print_moved<O: Sink>(line: &mut Vec<u8>, moved: u64, out: &mut O) -> Result<(), PrintFault>
    ensures { Writes (moved_line moved) result (O.taken out.old) (O.taken out.new) (O.faults out.old) (O.faults out.new) }
{
    put_moved(line, moved)?;
    write_all(out, line)?;
    Ok(())
}
