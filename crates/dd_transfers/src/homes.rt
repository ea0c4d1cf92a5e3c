//! The homes of elements.
ghost use Rattle.std.specs.Prelude.{◌≡◌, ◌+◌, ◌<◌, ◌≤◌, ℕ, min};
ghost use Rattle.dd_blocks.specs.Charges.{block_with};
ghost use Rattle.dd_blocks.specs.Grids.{IsGrid, block_of, element_count};
ghost use Rattle.dd_blocks.specs.Numbered.{IsNumberIn, array_row, block_row};
ghost use Rattle.dd_blocks.specs.WellFormed.{IsWellFormed};
ghost use Rattle.dd_transfers.specs.Homes.{AreHomes, home_by};
ghost use Rattle.dd_transfers.specs.Marks.{AreSameTo, IsMarked};
ghost use Rattle.dd_transfers.specs.Visits.{HaveHome};

use crate::mark::Visit;
use dd_blocks::{Grid, Plan};

/// So many elements, one after the other, that have one home.
#[derive(Clone, Copy)]
pub(crate) struct Stretch {
    pub home: u32,
    pub len: u32,
}

impl Stretch {
    /// The first of these elements, at most so many.
    pub(crate) fn at_most(self, len: u32) -> Stretch
        ensures home { result.home ≡ self.home }
        ensures len { result.len ≡ min self.len len }
    {
        Stretch {
            home: self.home,
            len: self.len.min(len),
        }
    }
}

/// The elements from a position of an array on that have one home: to the edge of the block, or as many as there are
/// where the array was moved, or where the visit does not ask for a home.
pub(crate) fn run_at(plan: &Plan, homes: &[u32], array: u32, pos: u64, visit: Visit) -> Stretch
    requires well { IsWellFormed plan.now }
    requires homes { AreHomes plan.now homes.now }
    requires array { IsNumberIn plan.now.arrays array }
    requires within { pos < element_count (array_row plan.now array).grid }
    ensures same { (len : ℕ) → len ≤ result.len → HaveHome plan.now homes.now visit array pos len result.home }
    ensures home { IsMarked result.home }
    ensures some { 1 ≤ result.len }
{
    if let Visit::Write(_) = visit {
        return Stretch {
            home: 1,
            len: u32::MAX,
        };
    }
    let moved_to = homes[array as usize - 1];
    if moved_to > 0 {
        return Stretch {
            home: moved_to,
            len: u32::MAX,
        };
    }
    Stretch {
        home: first_home(plan, array, pos),
        len: rows_left(plan.array(array).grid, pos),
    }
}

/// How many elements from a position on stand in one column of a block.
fn rows_left(grid: Grid, pos: u64) -> u32
    requires { IsGrid grid }
    ensures same { (k : ℕ) → k < result → block_of grid (pos + k) ≡ block_of grid pos }
    ensures some { 1 ≤ result }
{
    let row = (pos % u64::from(grid.rows)) as u32;
    (grid.brows - row % grid.brows).min(grid.rows - row)
}

/// The home of the element at a position of an array, or another that is the same to the visit of the mark. To find a
/// home takes some divisions.
pub(crate) fn home_for(
    plan: &Plan,
    homes: &[u32],
    array: u32,
    pos: u64,
    visit: Visit,
    mark: u8,
) -> u32
    requires well { IsWellFormed plan.now }
    requires homes { AreHomes plan.now homes.now }
    requires array { IsNumberIn plan.now.arrays array }
    requires within { pos < element_count (array_row plan.now array).grid }
    ensures same { AreSameTo visit mark result (home_by plan.now homes.now (record { array = array; pos = pos })) }
    ensures within { IsMarked result }
{
    if visit.asks_home(mark) {
        home_at(plan, homes, array, pos)
    } else {
        1
    }
}

/// The home of the element at a position of an array.
fn home_at(plan: &Plan, homes: &[u32], array: u32, pos: u64) -> u32
    requires well { IsWellFormed plan.now }
    requires homes { AreHomes plan.now homes.now }
    requires array { IsNumberIn plan.now.arrays array }
    requires within { pos < element_count (array_row plan.now array).grid }
    ensures value { result ≡ home_by plan.now homes.now (record { array = array; pos = pos }) }
    ensures within { IsMarked result }
{
    let moved_to = homes[array as usize - 1];
    if moved_to == 0 {
        first_home(plan, array, pos)
    } else {
        moved_to
    }
}

/// The first home of the element at a position of an array.
fn first_home(plan: &Plan, array: u32, pos: u64) -> u32
    requires well { IsWellFormed plan.now }
    requires array { IsNumberIn plan.now.arrays array }
    requires within { pos < element_count (array_row plan.now array).grid }
    ensures value { result ≡ (block_row plan.now (block_with plan.now array pos)).home }
    ensures within { IsMarked result }
{
    let row = plan.array(array);
    let block = u64::from(row.first_block) + row.grid.block_of(pos);
    plan.blocks.as_slice()[block as usize - 1].home
}
