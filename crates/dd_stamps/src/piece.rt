//! The part of a view's column that stands in a block.
ghost use Rattle.std.specs.Prelude.{◌≡◌, ◌≢◌, ◌↔◌, ℕ, ◌+◌, ◌*◌, ◌/◌, ◌-◌, ◌^◌, ◌<◌, ◌≤◌, pos, ◌≤ℤ◌};
ghost use Rattle.dd_views.specs.Positions.{position_in, stepped};
ghost use Rattle.dd_blocks.specs.Grids.{IsGrid, block_count};
ghost use Rattle.dd_stamps.specs.Columns.{IsColumnIn, IsPieceOf, IsWindowOf, place_at};

use dd_blocks::Grid;
use dd_views::{Column, View};

/// The elements of a column of a view that are in a block: by their numbers in the column, from 0, those from `from` on and
/// below `end`. The array's position `low` has the place `place` in the block, and the ones above it the places behind.
#[derive(Clone, Copy)]
pub(crate) struct Piece {
    pub from: usize,
    pub end: usize,
    pub low: u64,
    pub place: usize,
}

/// Where a block stands in its array: it has the columns from `left` on and below `right`, and `height` rows from `top` on.
#[derive(Clone, Copy)]
pub(crate) struct Window {
    pub left: u64,
    pub right: u64,
    pub top: u64,
    pub height: u64,
}

/// The window of a block, whose number in the grid is from 0. Its divisions are made once for all columns of a view.
pub(crate) fn window_of(grid: &Grid, block: u64) -> Window
    requires grid { IsGrid grid.now }
    requires block { block < block_count grid.now }
    ensures { IsWindowOf grid.now block result }
{
    let rows = u64::from(grid.rows);
    let bcols = u64::from(grid.bcols);
    let block_rows = u64::from(grid.rows.div_ceil(grid.brows));
    let left = block / block_rows * bcols;
    let top = block % block_rows * u64::from(grid.brows);
    Window {
        left,
        right: left + bcols,
        top,
        height: u64::from(grid.brows).min(rows - top),
    }
}

/// The column of the array that a column of a view is from, which has the number from 0. Nothing rests on its being right.
pub(crate) fn likely_col(view: &View, j: u32) -> u64 {
    let way = i64::from(j).wrapping_mul(view.cols.step);
    let number = i64::from(view.cols.first).wrapping_add(way);
    number.wrapping_sub(1).cast_unsigned()
}

/// The piece of a column in the block that has the window. It costs no division where the column is from the likely one of the array
/// and its step is 1; else one for the one, and two for the other. Clauses alone read the block.
pub(crate) fn piece_of(
    grid: &Grid,
    _block: u64,
    window: Window,
    column: Column,
    likely: u64,
) -> Piece
    requires grid { IsGrid grid.now }
    requires block { _block < block_count grid.now }
    requires window { IsWindowOf grid.now _block window }
    requires column { IsColumnIn grid.now column }
    ensures { IsPieceOf grid.now _block column result }
{
    let rows = u64::from(grid.rows);
    let col = col_of(column.first, rows, likely);
    if col < window.left || window.right <= col {
        return Piece {
            from: 0,
            end: 0,
            low: 0,
            place: 0,
        };
    }
    let low = col * rows + window.top;
    let (from, end) = between(column, low, low + window.height);
    Piece {
        from,
        end,
        low,
        place: ((col - window.left) * window.height) as usize,
    }
}

/// The column of the array that has a position. A product tells where it is the likely one.
fn col_of(pos: u64, rows: u64, likely: u64) -> u64
    requires { 0 < rows }
    ensures { result ≡ pos / rows }
{
    if let Some(start) = likely.checked_mul(rows) {
        if start <= pos && pos - start < rows {
            return likely;
        }
    }
    pos / rows
}

/// Which elements of a column stand from one position on and below another: those from the first answer on and below the
/// second.
fn between(column: Column, low: u64, high: u64) -> (usize, usize)
    requires steps { column.step ≢ pos 0 }
    requires small { column.first < 2 ^ 63 }
    requires whole { (i : ℕ) → i < column.count → pos 0 ≤ℤ stepped column i }
    requires order { low ≤ high }
    requires fits { high < 2 ^ 64 }
    ensures order { result.0 ≤ result.1 }
    ensures few { result.1 ≤ column.count }
    ensures inside { (i : ℕ) → result.0 ≤ i → i < result.1 → (low ≤ position_in column i) × (position_in column i < high) }
    ensures others { (i : ℕ) → i < column.count → low ≤ position_in column i → position_in column i < high → (result.0 ≤ i) × (i < result.1) }
{
    let count = column.count as usize;
    let step = column.step.unsigned_abs();
    // A column that goes down reaches the higher position first.
    let behind = column.first + 1;
    let (before, until) = if column.step > 0 {
        (
            low.saturating_sub(column.first),
            high.saturating_sub(column.first),
        )
    } else {
        (behind.saturating_sub(high), behind.saturating_sub(low))
    };
    (
        steps_within(before, step).min(count),
        steps_within(until, step).min(count),
    )
}

/// How many numbers of steps, from none on, stay below a way.
fn steps_within(way: u64, step: u64) -> usize
    requires { 0 < step }
    ensures { (i : ℕ) → (i < result) ↔ (i * step < way) }
{
    if step == 1 {
        way as usize
    } else if way == 0 {
        0
    } else {
        ((way - 1) / step + 1) as usize
    }
}

/// The place in the block of an element of a piece.
pub(crate) fn place_of(column: Column, piece: Piece, i: usize) -> usize
    requires small { column.first < 2 ^ 63 }
    requires few { i < column.count }
    requires whole { pos 0 ≤ℤ stepped column i }
    requires inside { position_in column i < 2 ^ 63 }
    requires low { piece.low ≤ position_in column i }
    requires within { place_at column piece i < 2 ^ 64 }
    ensures { result ≡ place_at column piece i }
{
    piece.place + (position_of(column, i) - piece.low) as usize
}

/// The position of an element of a column.
fn position_of(column: Column, i: usize) -> u64
    requires small { column.first < 2 ^ 63 }
    requires few { i < column.count }
    requires whole { pos 0 ≤ℤ stepped column i }
    requires inside { position_in column i < 2 ^ 63 }
    ensures { result ≡ position_in column i }
{
    let way = i as i64 * column.step;
    (column.first as i64 + way) as u64
}
