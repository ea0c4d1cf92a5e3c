//! The values of an access.
ghost use Rattle.std.specs.Prelude.{◌≡◌, ◌+◌, ◌≤◌, ◌++◌, map, length, OnOk};
ghost use Rattle.std.specs.List.{range_with_len};
ghost use Rattle.dd_kernels.specs.Lists.{element};
ghost use Rattle.dd_views.specs.IndexList.{index_list};
ghost use Rattle.dd_views.specs.Positions.{positions_in};
ghost use Rattle.dd_plain.specs.Walks.{IsColumnIn, IsOver};

use dd_views::{Column, View};
use std::alloc::AllocError;

/// Adds the values of an array at the positions of a view to a buffer.
pub(crate) fn gather(values: &[i64], view: &View, buf: &mut Vec<i64>) -> Result<(), AllocError>
    requires { IsOver view.now (length values.now) }
    ensures { OnOk result (buf.new.items ≡ buf.old.items ++ map (element values.now) (index_list view.now)) }
{
    for j in 0..view.cols.count {
        gather_column(values, view.column(j), buf)?;
    }
    Ok(())
}

/// Adds the values at the positions of a column.
fn gather_column(values: &[i64], column: Column, buf: &mut Vec<i64>) -> Result<(), AllocError>
    requires { IsColumnIn (length values.now) column }
    ensures { OnOk result (buf.new.items ≡ buf.old.items ++ map (element values.now) (positions_in column)) }
{
    if column.step == 1 {
        gather_run(values, column.first as usize, column.count as usize, buf)
    } else {
        gather_steps(values, column, buf)
    }
}

/// Adds values that stand one after the other.
fn gather_run(
    values: &[i64],
    first: usize,
    count: usize,
    buf: &mut Vec<i64>,
) -> Result<(), AllocError>
    requires { first + count ≤ length values.now }
    ensures { OnOk result (buf.new.items ≡ buf.old.items ++ map (element values.now) (range_with_len first count)) }
{
    buf.extend_from_slice(&values[first..first + count])
}

/// Adds values that stand in steps. A step down is one up in arithmetic that wraps.
fn gather_steps(values: &[i64], column: Column, buf: &mut Vec<i64>) -> Result<(), AllocError>
    requires { IsColumnIn (length values.now) column }
    ensures { OnOk result (buf.new.items ≡ buf.old.items ++ map (element values.now) (positions_in column)) }
{
    let step = column.step.cast_unsigned();
    let mut at = column.first;
    for _i in 0..column.count {
        buf.push(values[at as usize])?;
        at = at.wrapping_add(step);
    }
    Ok(())
}
