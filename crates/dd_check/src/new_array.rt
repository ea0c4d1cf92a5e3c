//! A new array.
ghost use Rattle.std.specs.Prelude.{◌≡◌, ◌+◌, ◌<◌, ◌≤◌, ◌^◌, true, suc, Some, length, IfOk, OnOk, ◌++◌};
ghost use Rattle.dd_blocks.specs.declared.what.What.TheVariants as what;
ghost use Rattle.dd_blocks.specs.Grids.{IsGrid, block_count, element_count};
ghost use Rattle.dd_blocks.specs.Layout.{blocks_of_array};
ghost use Rattle.dd_blocks.specs.Limits.{blocks_limit, elements_limit};
ghost use Rattle.dd_script.specs.declared.statement.Statement.TheVariants as statement;
ghost use Rattle.dd_check.specs.Drafts.{Counts, IsSoundDraft, above_of};
ghost use Rattle.dd_check.specs.Effects.{Enters, add_array, add_statement, with_name, with_plan};
ghost use Rattle.dd_check.specs.Kinds.{is_edge};
ghost use Rattle.dd_check.specs.NewArray.{FitsBehind, HasArray, block_at};
ghost use Rattle.dd_check.specs.Rows.{grid_of, next_array};

use crate::draft::Draft;
use crate::edges::grid_of;
use crate::row::add_row;
use dd_blocks::{ArrayRow, BlockRow, Fill, Grid, Name, What};
use dd_views::Items;
use std::alloc::{AllocError, Global};

/// An array by its edges.
pub(crate) fn make(
    alloc: Global,
    draft: &mut Draft,
    line: u32,
    name: &Name,
    rows: i64,
    cols: i64,
    brows: i64,
    bcols: i64,
    fill: Fill,
) -> Result<(), AllocError>
    requires sound { IsSoundDraft draft.old }
    requires settled { draft.old.settled ≡ true }
    requires rows { is_edge rows ≡ true }
    requires cols { is_edge cols ≡ true }
    requires brows { is_edge brows ≡ true }
    requires bcols { is_edge bcols ≡ true }
    requires fits { FitsBehind draft.old.plan (grid_of rows cols brows bcols) }
    ensures entered { OnOk result (Enters line (above_of draft.old) (statement.Array name.now rows cols brows bcols fill) (above_of draft.new)) }
    ensures counts { OnOk result (Counts draft.new) }
{
    let grid = grid_of(rows, cols, brows, bcols);
    add_array(alloc, draft, line, name, grid, fill)
}

/// Adds an array with its blocks and its statement.
fn add_array(
    alloc: Global,
    draft: &mut Draft,
    line: u32,
    name: &Name,
    grid: Grid,
    fill: Fill,
) -> Result<(), AllocError>
    requires sound { IsSoundDraft draft.old }
    requires settled { draft.old.settled ≡ true }
    requires fits { FitsBehind draft.old.plan grid }
    ensures entered { OnOk result (above_of draft.new
        ≡ with_name name.now (Some (suc (length draft.old.plan.arrays)))
        (with_plan (add_statement line (what.Put (suc (length draft.old.plan.arrays))) (add_array (next_array draft.old.plan grid fill) draft.old.plan)) (above_of draft.old))) }
    ensures counts { OnOk result (Counts draft.new) }
{
    let array = stand_behind(draft, grid, fill)?;
    draft.names.put(alloc, name.as_bytes(), array)?;
    add_row(draft, line, What::Put(array))?;
    Ok(())
}

/// Adds an array with its blocks, and its number.
fn stand_behind(draft: &mut Draft, grid: Grid, fill: Fill) -> Result<u32, AllocError>
    requires sound { IsSoundDraft draft.old }
    requires settled { draft.old.settled ≡ true }
    requires fits { FitsBehind draft.old.plan grid }
    ensures number { IfOk result (λ n. n ≡ suc (length draft.old.plan.arrays)) }
    ensures stands { OnOk result (HasArray draft.old grid fill draft.new) }
{
    let array = draft.plan.arrays.as_slice().len() as u32 + 1;
    let row = next_row(draft, grid, fill);
    let spaces = draft.plan.spaces.as_slice().len() as u64;
    add_blocks(&mut draft.plan.blocks, &row, array, spaces)?;
    draft.plan.arrays.push(row)?;
    draft.elements += u64::from(grid.rows) * u64::from(grid.cols);
    draft.counts.push(1)?;
    draft.homes.push(0)?;
    Ok(array)
}

/// The row of an array that comes next.
fn next_row(draft: &Draft, grid: Grid, fill: Fill) -> ArrayRow
    requires { IsSoundDraft draft.now }
    ensures value { result ≡ next_array draft.now.plan grid fill }
    ensures first { (1 ≤ result.first_block) × (result.first_block < 2 ^ 32) }
{
    let before = draft.plan.blocks.as_slice().len() as u32;
    ArrayRow {
        grid,
        fill,
        first_block: before + 1,
        first_element: draft.elements,
    }
}

/// Adds the rows of an array's blocks.
fn add_blocks(
    blocks: &mut Items<BlockRow>,
    row: &ArrayRow,
    array: u32,
    spaces: u64,
) -> Result<(), AllocError>
    requires grid { IsGrid row.now.grid }
    requires few_elements { element_count row.now.grid ≤ elements_limit }
    requires few_blocks { block_count row.now.grid ≤ blocks_limit }
    requires first { (1 ≤ row.now.first_block) × (row.now.first_block < 2 ^ 32) }
    requires spaces { (1 ≤ spaces) × (spaces < 2 ^ 32) }
    ensures { OnOk result (blocks.new ≡ blocks.old ++ blocks_of_array spaces array row.now) }
{
    for block in 0..row.grid.blocks() {
        blocks.push(block_at(row, array, spaces, block))?;
    }
    Ok(())
}

/// The row of a block of an array, by its place from 0.
fn block_at(row: &ArrayRow, array: u32, spaces: u64, block: u64) -> BlockRow
    requires grid { IsGrid row.now.grid }
    requires few_elements { element_count row.now.grid ≤ elements_limit }
    requires few_blocks { block_count row.now.grid ≤ blocks_limit }
    requires first { (1 ≤ row.now.first_block) × (row.now.first_block < 2 ^ 32) }
    requires spaces { (1 ≤ spaces) × (spaces < 2 ^ 32) }
    requires within { block < block_count row.now.grid }
    ensures { result ≡ block_at row.now array spaces block }
{
    BlockRow {
        array,
        home: ((u64::from(row.first_block) + block - 1) % spaces) as u32 + 1,
        size: row.grid.size(block) as u32,
    }
}
