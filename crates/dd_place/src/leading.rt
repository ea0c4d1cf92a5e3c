//! The block by which a task finds its space.
ghost use Rattle.std.specs.Prelude.{◌≡◌, ◌<◌, All, IfSome};
ghost use Rattle.std.specs.Option.{option_or};
ghost use Rattle.dd_blocks.specs.Charges.{block_with};
ghost use Rattle.dd_blocks.specs.Grids.{element_count};
ghost use Rattle.dd_blocks.specs.Numbered.{IsNumberIn, array_row};
ghost use Rattle.dd_place.specs.Leading.{first_block, first_block_of, written};
ghost use Rattle.dd_blocks.specs.OfPlan.{IsOfPlan};
ghost use Rattle.dd_place.specs.Premises.{CanPlace};

use dd_blocks::{AccessRow, Plan};

/// The block of the first element of the first written access that isn't empty, or else of the first access that
/// isn't.
pub fn leading_block(plan: &Plan, accesses: &[AccessRow]) -> Option<u32>
    requires plan { CanPlace plan.now }
    requires accesses { All (IsOfPlan plan.now) accesses.now }
    ensures value { result ≡ option_or (first_block_of plan.now (written accesses.now)) (first_block_of plan.now accesses.now) }
    ensures within { IfSome result (IsNumberIn plan.now.blocks) }
{
    if let Some(block) = first_written_block(plan, accesses) {
        return Some(block);
    }
    first_block_of(plan, accesses)
}

/// The block of the first element of the first written access that isn't empty.
fn first_written_block(plan: &Plan, accesses: &[AccessRow]) -> Option<u32>
    requires plan { CanPlace plan.now }
    requires accesses { All (IsOfPlan plan.now) accesses.now }
    ensures value { result ≡ first_block_of plan.now (written accesses.now) }
    ensures within { IfSome result (IsNumberIn plan.now.blocks) }
{
    for access in accesses {
        if access.writes()
            && let Some(block) = first_block(plan, access)
        {
            return Some(block);
        }
    }
    None
}

/// The block of the first element of the first access that isn't empty.
fn first_block_of(plan: &Plan, accesses: &[AccessRow]) -> Option<u32>
    requires plan { CanPlace plan.now }
    requires accesses { All (IsOfPlan plan.now) accesses.now }
    ensures value { result ≡ first_block_of plan.now accesses.now }
    ensures within { IfSome result (IsNumberIn plan.now.blocks) }
{
    for access in accesses {
        if let Some(block) = first_block(plan, access) {
            return Some(block);
        }
    }
    None
}

/// The block of an access's first element.
fn first_block(plan: &Plan, access: &AccessRow) -> Option<u32>
    requires plan { CanPlace plan.now }
    requires access { IsOfPlan plan.now access.now }
    ensures value { result ≡ first_block plan.now access.now }
    ensures within { IfSome result (IsNumberIn plan.now.blocks) }
{
    let view = &access.view;
    if view.len() == 0 {
        return None;
    }
    Some(block_with(plan, view.array, view.at(0)))
}

/// The block that has a position of an array.
fn block_with(plan: &Plan, array: u32, pos: u64) -> u32
    requires plan { CanPlace plan.now }
    requires array { IsNumberIn plan.now.arrays array }
    requires pos { pos < element_count (array_row plan.now array).grid }
    ensures value { result ≡ block_with plan.now array pos }
    ensures within { IsNumberIn plan.now.blocks result }
{
    let found = plan.array(array);
    found.first_block + found.grid.block_of(pos) as u32
}
