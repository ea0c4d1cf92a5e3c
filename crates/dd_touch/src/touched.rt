//! The blocks that a task touches.
ghost use Rattle.std.specs.Prelude.{◌≡◌, ◌↔◌, ℕ, ◌+◌, ◌^◌, ◌<◌, ◌≤◌, All, Contains, IfOk, OnOk, length};
ghost use Rattle.std.specs.List.Sorted.{IsStrictlyIncreasing};
ghost use Rattle.dd_views.specs.Span.{IsSpanIn};
ghost use Rattle.dd_views.specs.Views.{IsViewOf};
ghost use Rattle.dd_blocks.specs.declared.task_row.TaskRow.{TaskRow};
ghost use Rattle.dd_blocks.specs.Charges.{AreTouched};
ghost use Rattle.dd_blocks.specs.Grids.{block_cols, block_rows};
ghost use Rattle.dd_blocks.specs.Numbered.{IsNumberIn, array_row};
ghost use Rattle.dd_blocks.specs.Tasks.{shape_in};
ghost use Rattle.dd_blocks.specs.WellFormed.{HasSmallEdges};
ghost use Rattle.dd_blocks.specs.OfPlan.{HasBlocks, IsOfPlan};
ghost use Rattle.dd_touch.specs.Touching.{Adds, AreOf, Between, HasSmallNumbers, HoldsSome, IsBlockAt, IsTouchedBy, number_of_block};

use crate::places::{Places, kept_in};
use crate::strips::slice_from;
use dd_blocks::{AccessRow, ArrayRow, Plan};
use dd_views::{Span3, View};
use std::alloc::{AllocError, Global};

/// The numbers of the blocks that some accesses touch, rising.
pub fn touched_blocks(
    alloc: Global,
    plan: &Plan,
    accesses: &[AccessRow],
) -> Result<Vec<u32>, AllocError>
    requires arrays { All (HasBlocks plan.now) plan.now.arrays }
    requires edges { All HasSmallEdges plan.now.arrays }
    requires blocks { length plan.now.blocks < 2 ^ 32 }
    requires accesses { All (IsOfPlan plan.now) accesses.now }
    ensures touched { IfOk result (λ found. (task : TaskRow) → task.accesses ≡ accesses.now → AreTouched plan.now task found.items) }
    ensures numbers { IfOk result (λ found. All (IsNumberIn plan.now.blocks) found.items) }
    ensures few { IfOk result (λ found. length found.items ≤ length plan.now.blocks) }
{
    let mut blocks = touched_in_turn(alloc, plan, accesses)?;
    rise(&mut blocks);
    Ok(blocks)
}

/// The numbers of the blocks that some accesses touch, one access after the other.
fn touched_in_turn(
    alloc: Global,
    plan: &Plan,
    accesses: &[AccessRow],
) -> Result<Vec<u32>, AllocError>
    requires arrays { All (HasBlocks plan.now) plan.now.arrays }
    requires edges { All HasSmallEdges plan.now.arrays }
    requires blocks { length plan.now.blocks < 2 ^ 32 }
    requires accesses { All (IsOfPlan plan.now) accesses.now }
    ensures { IfOk result (λ found. AreOf plan.now accesses.now found.items) }
{
    let mut blocks = Vec::new(alloc);
    for access in accesses {
        add_access(&mut blocks, plan, access)?;
    }
    Ok(blocks)
}

/// Puts numbers into order, each of them once.
fn rise(numbers: &mut Vec<u32>)
    ensures rising { IsStrictlyIncreasing numbers.new.items }
    ensures same { (n : ℕ) → Contains numbers.new.items n ↔ Contains numbers.old.items n }
{
    numbers.sort_unstable();
    numbers.dedup();
}

/// Adds the numbers of the blocks that an access touches.
fn add_access(blocks: &mut Vec<u32>, plan: &Plan, access: &AccessRow) -> Result<(), AllocError>
    requires arrays { All (HasBlocks plan.now) plan.now.arrays }
    requires edges { All HasSmallEdges plan.now.arrays }
    requires blocks { length plan.now.blocks < 2 ^ 32 }
    requires access { IsOfPlan plan.now access.now }
    ensures { OnOk result (Adds (HoldsSome plan.now access.now) blocks.old.items blocks.new.items) }
{
    add_touched(blocks, plan.array(access.view.array), &access.view)
}

/// Adds the numbers of the blocks of an array that a view touches: one column of blocks after the other.
fn add_touched(blocks: &mut Vec<u32>, array: &ArrayRow, view: &View) -> Result<(), AllocError>
    requires array { HasSmallNumbers array.now }
    requires view { IsViewOf (shape_in array.now) view.now }
    ensures { OnOk result (Adds (IsTouchedBy array.now view.now) blocks.old.items blocks.new.items) }
{
    let end = u64::from(view.cols.count) + 1;
    let mut place = 1;
    while place < end {
        let col = slice_from(&view.cols, array.grid.bcols, place);
        let cols = Places {
            low: place,
            high: col.end,
        };
        let rows = kept_in(view.part, cols, view.rows.count);
        add_in_column(blocks, array, &view.rows, rows, col.strip)?;
        place = col.end;
    }
    Ok(())
}

/// Adds the numbers of the blocks in a column of blocks that some rows lie in, which stand at these places of a span.
fn add_in_column(
    blocks: &mut Vec<u32>,
    array: &ArrayRow,
    span: &Span3,
    rows: Places,
    col: u32,
) -> Result<(), AllocError>
    requires array { HasSmallNumbers array.now }
    requires span { IsSpanIn array.now.grid.rows span.now }
    requires low { 1 ≤ rows.low }
    requires order { rows.low ≤ rows.high }
    requires high { rows.high ≤ span.now.count + 1 }
    requires col { col < block_cols array.now.grid }
    ensures { OnOk result (Adds (Between (IsBlockAt array.now span.now col) rows.low rows.high) blocks.old.items blocks.new.items) }
{
    let mut place = rows.low;
    while place < rows.high {
        let row = slice_from(span, array.grid.brows, place);
        blocks.push(number_of_block(array, row.strip, col))?;
        place = row.end;
    }
    Ok(())
}

/// The number of a block, by its row and its column among the blocks of its array, both from 0.
fn number_of_block(array: &ArrayRow, i: u32, j: u32) -> u32
    requires array { HasSmallNumbers array.now }
    requires row { i < block_rows array.now.grid }
    requires col { j < block_cols array.now.grid }
    ensures { result ≡ number_of_block array.now i j }
{
    let block_rows = array.grid.rows.div_ceil(array.grid.brows);
    array.first_block + (j * block_rows + i)
}
