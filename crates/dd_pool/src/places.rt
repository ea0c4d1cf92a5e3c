ghost use Rattle.std.specs.Prelude.{◌≡◌, ◌*◌, ◌^◌, ◌<◌};
ghost use Rattle.dd_blocks.specs.Numbered.{IsNumberIn};
ghost use Rattle.dd_stamps.specs.Cells.{size_of};
ghost use Rattle.dd_pool.specs.Places.{IsPlace, cell_count, place_of};

use dd_blocks::Plan;

/// How many cells there are.
pub(crate) fn cell_count(plan: &Plan) -> usize
    requires { cell_count plan.now < 2 ^ 63 }
    ensures { result ≡ cell_count plan.now }
{
    plan.spaces.as_slice().len() * plan.blocks.as_slice().len()
}

/// The place of the cell of a space and a block, from 0.
pub(crate) fn place_of(plan: &Plan, space: u32, block: u32) -> usize
    requires few { cell_count plan.now < 2 ^ 63 }
    requires place { IsPlace plan.now space block }
    ensures value { result ≡ place_of plan.now space block }
    ensures within { result < cell_count plan.now }
{
    (space as usize - 1) * plan.blocks.as_slice().len() + (block as usize - 1)
}

/// How many bytes the values of a block have.
pub(crate) fn bytes_of(plan: &Plan, block: u32) -> u64
    requires { IsNumberIn plan.now.blocks block }
    ensures { result ≡ 8 * size_of plan.now block }
{
    bytes_of_elements(plan.blocks.as_slice()[block as usize - 1].size)
}

fn bytes_of_elements(count: u32) -> u64
    ensures { result ≡ 8 * count }
{
    8 * u64::from(count)
}
