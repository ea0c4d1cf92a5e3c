//! What a task wrote goes to the places of a block, with the task's number.
ghost use Rattle.std.specs.Prelude.{◌≡◌, ℕ, ◌+◌, ◌*◌, ◌<◌, ◌≤◌, Bool, true, pos, length, if◌then◌else◌, nat_le, nat_lt, ◌&&◌, slice_index};
ghost use Rattle.dd_kernels.specs.Lists.{element};
ghost use Rattle.dd_views.specs.declared.shape.Shape.{Shape};
ghost use Rattle.dd_views.specs.IndexList.{index_list};
ghost use Rattle.dd_views.specs.Views.{IsViewOf};
ghost use Rattle.dd_blocks.specs.Grids.{IsGrid, block_count, block_size, pos_of};
ghost use Rattle.dd_spans.specs.Numbers.{is_among};
ghost use Rattle.dd_stamps.specs.Columns.{HasPlaces, place_at};
ghost use Rattle.dd_stamps.specs.Placed.{HasPlaced};
ghost use Rattle.dd_stamps.specs.Stamps.{MayStamp, Spends, pending};
ghost use Rattle.dd_stamps.specs.Stored.{AreStored, AreStamped, HoldsNumber, HoldsOutputs, some_writes};
ghost use Rattle.std.specs.Prelude.{[], ◌∷◌};
ghost use Rattle.std.specs.List.{All};
ghost use Rattle.dd_blocks.specs.declared.access_row.AccessRow.{AccessRow};
ghost use Rattle.dd_meaning.specs.Lists.{lists_of};
ghost use Rattle.dd_meaning.specs.Written.{HaveLengths};

use crate::gathering::{copy_one, copy_run};
use crate::piece::{Piece, likely_col, piece_of, place_of, window_of};
use crate::rows::writes;
use dd_blocks::{AccessRow, Grid};
use dd_spans::RunMap;
use dd_views::{Column, View};

/// The elements of a block that accesses write take the values of their buffers and the number of a task, one access after the
/// other: where they overlap, a later one wins.
pub(crate) fn store_all(
    grid: &Grid,
    block: u64,
    array: u32,
    accesses: &[AccessRow],
    bufs: &[Vec<i64>],
    task: u32,
    values: &mut [i64],
    versions: &mut RunMap,
)
    ghost written: { ℕ → Bool }
    requires grid { IsGrid grid.now }
    requires block { block < block_count grid.now }
    requires views { All (λ (a : AccessRow). a.view.array ≡ array → IsViewOf (record { rows = grid.now.rows; cols = grid.now.cols }) a.view) accesses.now }
    requires long { HaveLengths accesses.now (lists_of bufs.now) }
    requires full { length values.old ≡ block_size grid.now block }
    requires stamps { length versions.old.list ≡ block_size grid.now block }
    requires written { (q : ℕ) → q < block_size grid.now block → some_writes accesses.now (record { array = array; pos = pos_of grid.now block q }) ≡ true → written q ≡ true }
    requires spare { MayStamp written task versions.old }
    ensures values { HoldsOutputs accesses.now (lists_of bufs.now) (λ q. record { array = array; pos = pos_of grid.now block q }) (block_size grid.now block) values.old values.new }
    ensures versions { HoldsNumber accesses.now (λ q. record { array = array; pos = pos_of grid.now block q }) (block_size grid.now block) task versions.old.list versions.new.list }
    ensures spare { Spends written task versions.old versions.new }
{
    for k in 0..accesses.len() {
        store_one(
            grid,
            block,
            array,
            accesses[k],
            &bufs[k],
            task,
            values,
            versions,
        );
    }
}

/// The same of one access.
fn store_one(
    grid: &Grid,
    block: u64,
    array: u32,
    access: AccessRow,
    from: &[i64],
    task: u32,
    values: &mut [i64],
    versions: &mut RunMap,
)
    ghost written: { ℕ → Bool }
    requires grid { IsGrid grid.now }
    requires block { block < block_count grid.now }
    requires view { access.view.array ≡ array → IsViewOf (record { rows = grid.now.rows; cols = grid.now.cols }) access.view }
    requires long { length from.now ≡ length (index_list access.view) }
    requires full { length values.old ≡ block_size grid.now block }
    requires stamps { length versions.old.list ≡ block_size grid.now block }
    requires written { (q : ℕ) → q < block_size grid.now block → some_writes (access ∷ []) (record { array = array; pos = pos_of grid.now block q }) ≡ true → written q ≡ true }
    requires spare { MayStamp written task versions.old }
    ensures values { HoldsOutputs (access ∷ []) (from.now ∷ []) (λ q. record { array = array; pos = pos_of grid.now block q }) (block_size grid.now block) values.old values.new }
    ensures versions { HoldsNumber (access ∷ []) (λ q. record { array = array; pos = pos_of grid.now block q }) (block_size grid.now block) task versions.old.list versions.new.list }
    ensures spare { Spends written task versions.old versions.new }
{
    if writes(access.mode) && access.view.array == array {
        store(grid, block, &access.view, from, task, values, versions);
    }
}

/// The elements of a view that are in a block take the values of a buffer and the number of a task, column by column.
fn store(
    grid: &Grid,
    block: u64,
    view: &View,
    from: &[i64],
    task: u32,
    values: &mut [i64],
    versions: &mut RunMap,
)
    ghost written: { ℕ → Bool }
    requires grid { IsGrid grid.now }
    requires view { IsViewOf (record { rows = grid.now.rows; cols = grid.now.cols }) view.now }
    requires block { block < block_count grid.now }
    requires long { length from.now ≡ length (index_list view.now) }
    requires full { length values.old ≡ block_size grid.now block }
    requires stamps { length versions.old.list ≡ block_size grid.now block }
    requires written { (q : ℕ) → q < block_size grid.now block → is_among (index_list view.now) (pos_of grid.now block q) ≡ true → written q ≡ true }
    requires spare { MayStamp written task versions.old }
    ensures values { AreStored grid.now block (index_list view.now) from.now values.old values.new }
    ensures versions { AreStamped grid.now block (index_list view.now) task versions.old.list versions.new.list }
    ensures spare { Spends written task versions.old versions.new }
{
    let window = window_of(grid, block);
    let mut at = 0;
    for j in 0..view.cols.count {
        let column = view.column(j);
        let piece = piece_of(grid, block, window, column, likely_col(view, j));
        store_column(column, piece, from, at, task, values, versions);
        at += column.count as usize;
    }
}

/// The elements of a piece of a column take the values that stand behind `at` others, and the number of the task.
fn store_column(
    column: Column,
    piece: Piece,
    from: &[i64],
    at: usize,
    task: u32,
    values: &mut [i64],
    versions: &mut RunMap,
)
    ghost written: { ℕ → Bool }
    requires places { HasPlaces column piece (length values.old) }
    requires same { length versions.old.list ≡ length values.old }
    requires room { at + column.count ≤ length from.now }
    requires written { (i : ℕ) → piece.from ≤ i → i < piece.end → written (place_at column piece i) ≡ true }
    requires spare { MayStamp written task versions.old }
    ensures values { HasPlaced (pos 0) piece.from piece.end (place_at column piece) (λ i. element from.now (at + i)) values.old values.new }
    ensures versions { HasPlaced 0 piece.from piece.end (place_at column piece) (λ _. task) versions.old.list versions.new.list }
    ensures spare { Spends written task versions.old versions.new }
{
    if piece.from == piece.end {
        return;
    }
    if column.step == 1 {
        let first = place_of(column, piece, piece.from);
        let many = piece.end - piece.from;
        copy_run(from, at + piece.from, values, first, many);
        stamp(versions, first as u64, (first + many) as u64, task);
    } else {
        store_steps(column, piece, from, at, task, values, versions);
    }
}

/// Stores values that stand in steps.
fn store_steps(
    column: Column,
    piece: Piece,
    from: &[i64],
    at: usize,
    task: u32,
    values: &mut [i64],
    versions: &mut RunMap,
)
    ghost written: { ℕ → Bool }
    requires places { HasPlaces column piece (length values.old) }
    requires same { length versions.old.list ≡ length values.old }
    requires room { at + column.count ≤ length from.now }
    requires written { (i : ℕ) → piece.from ≤ i → i < piece.end → written (place_at column piece i) ≡ true }
    requires spare { MayStamp written task versions.old }
    ensures values { HasPlaced (pos 0) piece.from piece.end (place_at column piece) (λ i. element from.now (at + i)) values.old values.new }
    ensures versions { HasPlaced 0 piece.from piece.end (place_at column piece) (λ _. task) versions.old.list versions.new.list }
    ensures spare { Spends written task versions.old versions.new }
{
    for i in piece.from..piece.end {
        let place = place_of(column, piece, i);
        copy_one(from, at + i, values, place);
        stamp(versions, place as u64, place as u64 + 1, task);
    }
}

/// The places from `first` on and below `end` take the number of a task. Where all have it, which a store of the same task
/// may have done, no spare is used.
fn stamp(versions: &mut RunMap, first: u64, end: u64, task: u32)
    ghost written: { ℕ → Bool }
    requires order { first ≤ end }
    requires within { end ≤ length versions.old.list }
    requires written { (p : ℕ) → first ≤ p → p < end → written p ≡ true }
    requires spare { MayStamp written task versions.old }
    ensures places { (p : ℕ) → slice_index versions.new.list p ≡ (if nat_le first p && nat_lt p end then task else slice_index versions.old.list p) }
    ensures len { length versions.new.list ≡ length versions.old.list }
    ensures spare { Spends written task versions.old versions.new }
{
    for place in first..end {
        if versions.get(place) != task {
            versions.set_run(first, end - first, task);
            return;
        }
    }
}
