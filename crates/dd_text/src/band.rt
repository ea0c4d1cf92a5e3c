//! Bands of rows. Where columns are long, the numbers of a row stand far from each other, and those of some rows are
//! gathered at once.
ghost use Rattle.std.specs.Prelude.{◌≡◌, ℕ, ◌+◌, ◌-◌, ◌*◌, ◌<◌, ◌≤◌, ◌++◌, length, min, drop, take, OnOk};
ghost use Rattle.std.specs.List.{flat_map, range_with_len};
ghost use Rattle.dd_blocks.specs.Grids.{element_count};
ghost use Rattle.dd_meaning.specs.Text.{printed_row, printed};
ghost use Rattle.dd_text.specs.Bands.{band_of};
ghost use Rattle.dd_text.specs.Writes.{WritesAllBut};

use crate::fault::PrintFault;
use crate::row::print_rows;
use dd_blocks::Grid;
use dd_io::Sink;
use std::alloc::AllocError;

/// How many rows are gathered at once: two lines of the cache in each column.
pub(crate) const HEIGHT: u32 = 16;

/// Adds so many values from a place on to a band.
fn push_part(band: &mut Vec<i64>, values: &[i64], at: usize, count: usize) -> Result<(), AllocError>
    requires { at + count ≤ length values.now }
    ensures { OnOk result (band.new.items ≡ band.old.items ++ take count (drop at values.now)) }
{
    band.extend_from_slice(&values[at..at + count])
}

/// Gathers so many rows from row `first` on, column by column, in place of what was in `band`.
fn gather_band(
    band: &mut Vec<i64>,
    grid: Grid,
    values: &[i64],
    first: u32,
    height: u32,
) -> Result<(), AllocError>
    requires within { first + height ≤ grid.rows }
    requires filled { length values.now ≡ element_count grid }
    ensures { OnOk result (band.new.items ≡ band_of grid values.now first height) }
{
    band.clear();
    for j in 0..grid.cols {
        let at = j as usize * grid.rows as usize + first as usize;
        push_part(band, values, at, height as usize)?;
    }
    Ok(())
}

/// Adds the rows of a band to those that wait, and writes these where they are enough. `band` is only room for it.
fn print_band<O: Sink>(
    rows: &mut Vec<u8>,
    band: &mut Vec<i64>,
    grid: Grid,
    values: &[i64],
    first: u32,
    out: &mut O,
) -> Result<(), PrintFault>
    requires within { first < grid.rows }
    requires filled { length values.now ≡ element_count grid }
    ensures { WritesAllBut rows.new.items (rows.old.items ++ flat_map (printed_row grid values.now) (range_with_len first (min 16 (grid.rows - first))))
        result (O.taken out.old) (O.taken out.new) (O.faults out.old) (O.faults out.new) }
{
    let height = HEIGHT.min(grid.rows - first);
    gather_band(band, grid, values, first, height)?;
    let part = Grid {
        rows: height,
        ..grid
    };
    print_rows(rows, part, band, out)
}

/// Adds all rows of an array to those that wait, band by band, and writes these where they are enough.
pub(crate) fn print_bands<O: Sink>(
    rows: &mut Vec<u8>,
    band: &mut Vec<i64>,
    grid: Grid,
    values: &[i64],
    out: &mut O,
) -> Result<(), PrintFault>
    requires { length values.now ≡ element_count grid }
    ensures { WritesAllBut rows.new.items (rows.old.items ++ printed grid values.now)
        result (O.taken out.old) (O.taken out.new) (O.faults out.old) (O.faults out.new) }
{
    for k in 0..grid.rows.div_ceil(HEIGHT) {
        print_band(rows, band, grid, values, k * HEIGHT, out)?;
    }
    Ok(())
}
