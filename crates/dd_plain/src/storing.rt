//! Values go to where an access is.
ghost use Rattle.std.specs.Prelude.{◌≡◌, length};
ghost use Rattle.dd_views.specs.IndexList.{index_list};
ghost use Rattle.dd_views.specs.Positions.{positions_in};
ghost use Rattle.dd_meaning.specs.Steps.{put_at};
ghost use Rattle.dd_plain.specs.Walks.{IsColumnIn, IsOver};

use dd_views::{Column, View};

/// Writes values to the positions of a view.
pub(crate) fn store(values: &mut [i64], view: &View, from: &[i64])
    requires over { IsOver view.now (length values.old) }
    requires long { length from.now ≡ length (index_list view.now) }
    ensures { values.new ≡ put_at (index_list view.now) from.now values.old }
{
    let mut rest = from;
    for j in 0..view.cols.count {
        let column = view.column(j);
        let (here, left) = rest.split_at(column.count as usize);
        store_column(values, column, here);
        rest = left;
    }
}

/// Writes values to the positions of a column.
fn store_column(values: &mut [i64], column: Column, from: &[i64])
    requires within { IsColumnIn (length values.old) column }
    requires long { length from.now ≡ column.count }
    ensures { values.new ≡ put_at (positions_in column) from.now values.old }
{
    if column.step == 1 {
        let first = column.first as usize;
        values[first..first + from.len()].copy_from_slice(from);
    } else {
        store_steps(values, column, from);
    }
}

/// Writes values to positions in steps. A step down is one up in arithmetic that wraps.
fn store_steps(values: &mut [i64], column: Column, from: &[i64])
    requires within { IsColumnIn (length values.old) column }
    requires long { length from.now ≡ column.count }
    ensures { values.new ≡ put_at (positions_in column) from.now values.old }
{
    let step = column.step.cast_unsigned();
    let mut at = column.first;
    for value in from {
        values[at as usize] = *value;
        at = at.wrapping_add(step);
    }
}
