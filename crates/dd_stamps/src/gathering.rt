//! Values of a view's elements in one block.
ghost use Rattle.std.specs.Prelude.{◌≡◌, ◌+◌, ◌*◌, ◌<◌, ◌≤◌, pos, length};
ghost use Rattle.dd_kernels.specs.Lists.{element};
ghost use Rattle.dd_views.specs.declared.shape.Shape.{Shape};
ghost use Rattle.dd_views.specs.IndexList.{index_list};
ghost use Rattle.dd_views.specs.Views.{IsViewOf};
ghost use Rattle.dd_blocks.specs.Grids.{IsGrid, block_count, block_size};
ghost use Rattle.dd_stamps.specs.Columns.{HasPlaces, place_at};
ghost use Rattle.dd_stamps.specs.Gathered.{HasGathered};
ghost use Rattle.dd_stamps.specs.Placed.{HasCopied, HasPlaced};

use crate::piece::{Piece, likely_col, piece_of, place_of, window_of};
use dd_blocks::Grid;
use dd_views::{Column, View};

/// Puts the values of a block at the places of its elements in a view, column by column.
pub(crate) fn gather(grid: &Grid, block: u64, values: &[i64], view: &View, into: &mut [i64])
    requires grid { IsGrid grid.now }
    requires view { IsViewOf (record { rows = grid.now.rows; cols = grid.now.cols }) view.now }
    requires block { block < block_count grid.now }
    requires full { length values.now ≡ block_size grid.now block }
    requires long { length into.old ≡ length (index_list view.now) }
    ensures { HasGathered grid.now block values.now (index_list view.now) into.old into.new }
{
    let window = window_of(grid, block);
    let mut at = 0;
    for j in 0..view.cols.count {
        let column = view.column(j);
        let piece = piece_of(grid, block, window, column, likely_col(view, j));
        gather_column(values, column, piece, into, at);
        at += column.count as usize;
    }
}

/// Puts the values of a piece of a column at their places, behind `at` others.
fn gather_column(values: &[i64], column: Column, piece: Piece, into: &mut [i64], at: usize)
    requires places { HasPlaces column piece (length values.now) }
    requires room { at + column.count ≤ length into.old }
    ensures { HasPlaced (pos 0) piece.from piece.end (λ i. at + i) (λ i. element values.now (place_at column piece i)) into.old into.new }
{
    if piece.from == piece.end {
        return;
    }
    if column.step == 1 {
        let first = place_of(column, piece, piece.from);
        copy_run(values, first, into, at + piece.from, piece.end - piece.from);
    } else {
        gather_steps(values, column, piece, into, at);
    }
}

/// Puts values that stand in steps.
fn gather_steps(values: &[i64], column: Column, piece: Piece, into: &mut [i64], at: usize)
    requires places { HasPlaces column piece (length values.now) }
    requires room { at + column.count ≤ length into.old }
    ensures { HasPlaced (pos 0) piece.from piece.end (λ i. at + i) (λ i. element values.now (place_at column piece i)) into.old into.new }
{
    for i in piece.from..piece.end {
        copy_one(values, place_of(column, piece, i), into, at + i);
    }
}

/// Copies values that stand one after the other.
pub(crate) fn copy_run(from: &[i64], first: usize, into: &mut [i64], at: usize, many: usize)
    requires here { first + many ≤ length from.now }
    requires there { at + many ≤ length into.old }
    ensures { HasCopied (pos 0) first at many from.now into.old into.new }
{
    into[at..at + many].copy_from_slice(&from[first..first + many]);
}

/// Copies one value.
pub(crate) fn copy_one(from: &[i64], first: usize, into: &mut [i64], at: usize)
    requires here { first < length from.now }
    requires there { at < length into.old }
    ensures { HasCopied (pos 0) first at 1 from.now into.old into.new }
{
    into[at] = from[first];
}
