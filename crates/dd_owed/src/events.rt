//! The events of each kind of statement, by their places from 0.
ghost use Rattle.std.specs.Prelude.{◌≡◌, ◌*◌, ◌<◌, ◌∷◌, [], slice_get, IfSome, Some};
ghost use Rattle.std.specs.List.{flat_map};
ghost use Rattle.dd_blocks.specs.Limits.{blocks_limit};
ghost use Rattle.dd_blocks.specs.Numbered.{IsNumberIn};
ghost use Rattle.dd_blocks.specs.WellFormed.{IsWellFormed};
ghost use Rattle.dd_machine.specs.Owed.{blocks_by_rows, blocks_elsewhere, blocks_of, brought, freed, put_there, shifted_to};

use crate::blocks::{block_at, block_by_rows_at, block_elsewhere_at};
use dd_blocks::Plan;
use dd_machine::Event;

/// The three events that put a block.
fn put_at(plan: &Plan, row: u32, block: u32, i: u32) -> Event
    requires row { IsNumberIn plan.now.statements row }
    requires block { IsNumberIn plan.now.blocks block }
    requires within { i < 3 }
    ensures { Some result ≡ slice_get (put_there plan.now row block) i }
{
    match i {
        0 => Event::Ask {
            space: plan.home_before(row, block),
            block,
        },
        1 => Event::Put { block },
        _ => Event::Rest,
    }
}

/// The two events that bring a block to its home.
fn brought_at(plan: &Plan, row: u32, block: u32, i: u32) -> Event
    requires row { IsNumberIn plan.now.statements row }
    requires block { IsNumberIn plan.now.blocks block }
    requires within { i < 2 }
    ensures { Some result ≡ slice_get (brought plan.now row block) i }
{
    match i {
        0 => Event::Ask {
            space: plan.home_before(row, block),
            block,
        },
        _ => Event::Rest,
    }
}

/// The three events that move a block to a space.
fn shifted_at(space: u32, block: u32, i: u32) -> Event
    requires { i < 3 }
    ensures { Some result ≡ slice_get (shifted_to space block) i }
{
    match i {
        0 => Event::Ask { space, block },
        1 => Event::Shift { block, space },
        _ => Event::Rest,
    }
}

/// Of those that put an array's blocks.
pub(crate) fn put_event(plan: &Plan, row: u32, array: u32, i: u32) -> Option<Event>
    requires well { IsWellFormed plan.now }
    requires row { IsNumberIn plan.now.statements row }
    requires array { IsNumberIn plan.now.arrays array }
    ensures value { result ≡ slice_get (flat_map (put_there plan.now row) (blocks_of plan.now array)) i }
    ensures few { IfSome result (λ _. i < 3 * blocks_limit) }
{
    match block_at(plan, array, i / 3) {
        Some(block) => Some(put_at(plan, row, block, i % 3)),
        None => None,
    }
}

/// Of those that bring an array's blocks row by row.
pub(crate) fn print_event(plan: &Plan, row: u32, array: u32, i: u32) -> Option<Event>
    requires well { IsWellFormed plan.now }
    requires row { IsNumberIn plan.now.statements row }
    requires array { IsNumberIn plan.now.arrays array }
    ensures value { result ≡ slice_get (flat_map (brought plan.now row) (blocks_by_rows plan.now array)) i }
    ensures few { IfSome result (λ _. i < 3 * blocks_limit) }
{
    match block_by_rows_at(plan, array, i / 2) {
        Some(block) => Some(brought_at(plan, row, block, i % 2)),
        None => None,
    }
}

/// Of those that bring an array's blocks in their order.
pub(crate) fn sum_event(plan: &Plan, row: u32, array: u32, i: u32) -> Option<Event>
    requires well { IsWellFormed plan.now }
    requires row { IsNumberIn plan.now.statements row }
    requires array { IsNumberIn plan.now.arrays array }
    ensures value { result ≡ slice_get (flat_map (brought plan.now row) (blocks_of plan.now array)) i }
    ensures few { IfSome result (λ _. i < 3 * blocks_limit) }
{
    match block_at(plan, array, i / 2) {
        Some(block) => Some(brought_at(plan, row, block, i % 2)),
        None => None,
    }
}

/// Of those that move an array's blocks to a space.
pub(crate) fn shift_event(plan: &Plan, row: u32, array: u32, space: u32, i: u32) -> Option<Event>
    requires well { IsWellFormed plan.now }
    requires row { IsNumberIn plan.now.statements row }
    requires array { IsNumberIn plan.now.arrays array }
    ensures value { result ≡ slice_get (flat_map (shifted_to space) (blocks_elsewhere plan.now row array space)) i }
    ensures few { IfSome result (λ _. i < 3 * blocks_limit) }
{
    match block_elsewhere_at(plan, row, array, space, i / 3) {
        Some(block) => Some(shifted_at(space, block, i % 3)),
        None => None,
    }
}

/// Of those that free an array's blocks.
pub(crate) fn free_event(plan: &Plan, row: u32, array: u32, i: u32) -> Option<Event>
    requires well { IsWellFormed plan.now }
    requires row { IsNumberIn plan.now.statements row }
    requires array { IsNumberIn plan.now.arrays array }
    ensures value { result ≡ slice_get (flat_map (freed plan.now row) (blocks_of plan.now array)) i }
    ensures few { IfSome result (λ _. i < 3 * blocks_limit) }
{
    match block_at(plan, array, i) {
        Some(block) => Some(Event::Free {
            space: plan.home_before(row, block),
            block,
        }),
        None => None,
    }
}

/// Of the two that open and close a region.
pub(crate) fn region_event(region: u32, i: u32) -> Option<Event>
    ensures value { result ≡ slice_get (Event.Begin region ∷ Event.Close region ∷ []) i }
    ensures few { IfSome result (λ _. i < 3 * blocks_limit) }
{
    match i {
        0 => Some(Event::Begin { region }),
        1 => Some(Event::Close { region }),
        _ => None,
    }
}
