//! Rows of a Plan by their numbers, and what an access does.
ghost use Rattle.std.specs.Prelude.{◌≡◌, ◌<◌, ◌≤◌};
ghost use Rattle.dd_blocks.specs.Grids.{IsGrid, block_count, block_size};
ghost use Rattle.dd_blocks.specs.Elements.{reads, writes};
ghost use Rattle.dd_blocks.specs.Numbered.{IsNumberIn, array_row, block_row, task_row};
ghost use Rattle.dd_blocks.specs.WellFormed.{IsWellFormed};
ghost use Rattle.dd_stamps.specs.Cells.{size_of};
ghost use Rattle.dd_blocks.specs.PlanElements.{block_in_grid, grid_of};

use dd_blocks::{ArrayRow, BlockRow, Plan, TaskRow};
use dd_kernels::Mode;

/// The row of a block.
pub(crate) fn block_row(plan: &Plan, block: u32) -> BlockRow
    requires { IsNumberIn plan.now.blocks block }
    ensures { result ≡ block_row plan.now block }
{
    plan.blocks.as_slice()[block as usize - 1]
}

/// The row of an array.
fn array_row(plan: &Plan, array: u32) -> ArrayRow
    requires { IsNumberIn plan.now.arrays array }
    ensures { result ≡ array_row plan.now array }
{
    plan.arrays.as_slice()[array as usize - 1]
}

/// The array that a block is of.
pub(crate) fn array_with(plan: &Plan, block: u32) -> ArrayRow
    requires well { IsWellFormed plan.now }
    requires known { IsNumberIn plan.now.blocks block }
    ensures row { result ≡ array_row plan.now (block_row plan.now block).array }
    ensures low { result.first_block ≤ block }
    ensures grid { IsGrid result.grid }
    ensures high { block_in_grid plan.now block < block_count result.grid }
    ensures size { size_of plan.now block ≡ block_size result.grid (block_in_grid plan.now block) }
{
    array_row(plan, block_row(plan, block).array)
}

/// The row of a task.
pub(crate) fn task_row(plan: &Plan, task: u32) -> &TaskRow
    requires { IsNumberIn plan.now.tasks task }
    ensures { result.now ≡ task_row plan.now task }
{
    &plan.tasks.as_slice()[task as usize - 1]
}

/// Whether an access of the mode reads.
pub(crate) fn reads(mode: Mode) -> bool
    ensures { result ≡ reads mode }
{
    matches!(mode, Mode::Read | Mode::Both)
}

/// Whether an access of the mode writes.
pub(crate) fn writes(mode: Mode) -> bool
    ensures { result ≡ writes mode }
{
    matches!(mode, Mode::Write | Mode::Both)
}
