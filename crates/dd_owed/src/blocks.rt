//! The blocks of an array, by their places in the lists that statements go through. Places are from 0.
ghost use Rattle.std.specs.Prelude.{◌≡◌, ◌-◌, ◌<◌, slice_get, take, IfSome, None};
ghost use Rattle.std.specs.List.{last_or};
ghost use Rattle.dd_blocks.specs.Homes.{space_moved_to, spaces_of};
ghost use Rattle.dd_blocks.specs.Limits.{blocks_limit};
ghost use Rattle.dd_blocks.specs.Numbered.{IsNumberIn};
ghost use Rattle.dd_blocks.specs.WellFormed.{IsWellFormed};
ghost use Rattle.dd_machine.specs.Owed.{blocks_by_rows, blocks_elsewhere, blocks_of};

use dd_blocks::{Plan, StatementRow, What};

/// The space to which a statement moves an array.
fn moves(what: &What, array: u32) -> Option<u32>
    ensures { result ≡ space_moved_to array what.now }
{
    match what {
        What::MoveTo {
            array: moved,
            space,
        } if *moved == array => Some(*space),
        _ => None,
    }
}

/// The space to which the last statement above a row moved an array.
fn moved_to(plan: &Plan, row: u32, array: u32) -> Option<u32>
    requires { IsNumberIn plan.now.statements row }
    ensures { result ≡ last_or None (spaces_of array (take (row - 1) plan.now.statements)) }
{
    last_space(&plan.statements.as_slice()[..row as usize - 1], array)
}

/// The space to which the last of some statements moved an array.
fn last_space(rows: &[StatementRow], array: u32) -> Option<u32>
    ensures { result ≡ last_or None (spaces_of array rows.now) }
{
    let mut space = None;
    for row in rows {
        space = moves(&row.what, array).or(space);
    }
    space
}

/// The block at a place, rising.
pub(crate) fn block_at(plan: &Plan, array: u32, i: u32) -> Option<u32>
    requires well { IsWellFormed plan.now }
    requires array { IsNumberIn plan.now.arrays array }
    ensures value { result ≡ slice_get (blocks_of plan.now array) i }
    ensures known { IfSome result (IsNumberIn plan.now.blocks) }
    ensures few { IfSome result (λ _. i < blocks_limit) }
{
    let row = plan.array(array);
    if u64::from(i) < row.grid.blocks() {
        Some(row.first_block + i)
    } else {
        None
    }
}

/// The block at a place where the blocks go row by row of blocks, each from the left.
pub(crate) fn block_by_rows_at(plan: &Plan, array: u32, i: u32) -> Option<u32>
    requires well { IsWellFormed plan.now }
    requires array { IsNumberIn plan.now.arrays array }
    ensures value { result ≡ slice_get (blocks_by_rows plan.now array) i }
    ensures known { IfSome result (IsNumberIn plan.now.blocks) }
    ensures few { IfSome result (λ _. i < blocks_limit) }
{
    let row = plan.array(array);
    let high = row.grid.rows.div_ceil(row.grid.brows);
    let wide = row.grid.cols.div_ceil(row.grid.bcols);
    if i / wide < high {
        Some(row.first_block + (i % wide * high + i / wide))
    } else {
        None
    }
}

/// The block at a place among those whose home before the row is another space.
pub(crate) fn block_elsewhere_at(
    plan: &Plan,
    row: u32,
    array: u32,
    space: u32,
    i: u32,
) -> Option<u32>
    requires well { IsWellFormed plan.now }
    requires row { IsNumberIn plan.now.statements row }
    requires array { IsNumberIn plan.now.arrays array }
    ensures value { result ≡ slice_get (blocks_elsewhere plan.now row array space) i }
    ensures known { IfSome result (IsNumberIn plan.now.blocks) }
    ensures few { IfSome result (λ _. i < blocks_limit) }
{
    let found = plan.array(array);
    let moved = moved_to(plan, row, array);
    let mut left = i;
    for j in 0..found.grid.blocks() {
        let block = found.first_block + j as u32;
        let home = moved.unwrap_or(plan.block(block).home);
        if home != space {
            if left == 0 {
                return Some(block);
            }
            left -= 1;
        }
    }
    None
}
