ghost use Rattle.std.specs.Prelude.{◌≡◌, ◌+◌, ◌≤◌, ◌<◌};
ghost use Rattle.dd_blocks.specs.Grids.{block_count};
ghost use Rattle.dd_blocks.specs.Numbered.{IsNumberIn, array_row};
ghost use Rattle.dd_blocks.specs.WellFormed.{IsWellFormed};
ghost use Rattle.dd_machine.specs.Words.{blocks};

use dd_blocks::Plan;

/// The number of the first block of an array.
pub fn first_block(plan: &Plan, array: u32) -> u32
    requires well { IsWellFormed plan.now }
    requires array { IsNumberIn plan.now.arrays array }
    ensures value { result ≡ (array_row plan.now array).first_block }
    ensures some { 1 ≤ result }
{
    plan.array(array).first_block
}

/// The number behind that of the last block of an array.
pub fn end_of_blocks(plan: &Plan, array: u32) -> u32
    requires well { IsWellFormed plan.now }
    requires array { IsNumberIn plan.now.arrays array }
    ensures value { result ≡ (array_row plan.now array).first_block + block_count (array_row plan.now array).grid }
    ensures within { result ≤ blocks plan.now + 1 }
{
    let row = plan.array(array);
    row.first_block + row.grid.blocks() as u32
}
