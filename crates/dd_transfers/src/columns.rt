//! The visits of a task to the elements of a column.
ghost use Rattle.std.specs.Prelude.{◌≡◌, ◌+◌, ◌<◌, ◌≤◌, ℕ, List, [], ◌∷◌, length, map};
ghost use Rattle.std.specs.List.{range_with_len};
ghost use Rattle.dd_blocks.specs.Grids.{element_count};
ghost use Rattle.dd_blocks.specs.Layout.{elements_in};
ghost use Rattle.dd_blocks.specs.Numbered.{IsNumberIn, array_row};
ghost use Rattle.dd_blocks.specs.WellFormed.{IsWellFormed};
ghost use Rattle.dd_views.specs.Positions.{positions_in};
ghost use Rattle.dd_transfers.specs.Homes.{AreHomes, HasPositions};
ghost use Rattle.dd_transfers.specs.Marks.{IsMarked, IsMarkedVisit};
ghost use Rattle.dd_transfers.specs.Visits.{HaveHome, Visited, visit_at};

use crate::homes::{Stretch, home_for, run_at};
use crate::mark::{Visit, after_visit, visit_marks};
use dd_blocks::Plan;
use dd_views::Column;

/// How many elements make a run long.
const LONG: u32 = 8;

/// Each element of a column is visited.
pub(crate) fn visit_column(
    marks: &mut [u8],
    plan: &Plan,
    homes: &[u32],
    array: u32,
    column: Column,
    visit: Visit,
) -> u64
    requires well { IsWellFormed plan.now }
    requires marks { length marks.old ≡ elements_in plan.now.arrays }
    requires homes { AreHomes plan.now homes.now }
    requires array { IsNumberIn plan.now.arrays array }
    requires column { HasPositions (element_count (array_row plan.now array).grid) column }
    requires visit { IsMarkedVisit visit }
    ensures { Visited (map (visit_at plan.now homes.now visit array) (positions_in column)) marks.old marks.new result }
{
    if column.step == 1 && has_long_runs(plan, homes, array, column.count) {
        visit_runs(marks, plan, homes, array, column.first, column.count, visit)
    } else {
        visit_steps(marks, plan, homes, array, column, visit)
    }
}

/// Whether so many elements, one after the other, are worth to be walked in runs. To find a run takes some divisions,
/// and a mark says mostly that no home has to be found.
fn has_long_runs(plan: &Plan, homes: &[u32], array: u32, count: u32) -> bool
    requires homes { AreHomes plan.now homes.now }
    requires array { IsNumberIn plan.now.arrays array }
{
    let longest = if homes[array as usize - 1] > 0 {
        count
    } else {
        plan.array(array).grid.brows.min(count)
    };
    longest >= LONG
}

/// Elements that stand one after the other are visited, those with one home at a time.
fn visit_runs(
    marks: &mut [u8],
    plan: &Plan,
    homes: &[u32],
    array: u32,
    first: u64,
    count: u32,
    visit: Visit,
) -> u64
    requires well { IsWellFormed plan.now }
    requires marks { length marks.old ≡ elements_in plan.now.arrays }
    requires homes { AreHomes plan.now homes.now }
    requires array { IsNumberIn plan.now.arrays array }
    requires within { 0 < count → first + count ≤ element_count (array_row plan.now array).grid }
    requires visit { IsMarkedVisit visit }
    ensures { Visited (map (visit_at plan.now homes.now visit array) (range_with_len first count)) marks.old marks.new result }
{
    let mut moved = 0;
    let mut done = 0;
    while done < count {
        let pos = first + u64::from(done);
        let run = run_at(plan, homes, array, pos, visit).at_most(count - done);
        moved += visit_run(marks, plan, array, pos, run, visit);
        done += run.len;
    }
    moved
}

/// Elements that have one home are visited.
fn visit_run(marks: &mut [u8], plan: &Plan, array: u32, pos: u64, run: Stretch, visit: Visit) -> u64
    requires well { IsWellFormed plan.now }
    requires marks { length marks.old ≡ elements_in plan.now.arrays }
    requires array { IsNumberIn plan.now.arrays array }
    requires within { pos + run.len ≤ element_count (array_row plan.now array).grid }
    requires home { IsMarked run.home }
    requires visit { IsMarkedVisit visit }
    ensures { (homes : List ℕ) → HaveHome plan.now homes visit array pos run.len run.home → Visited (map (visit_at plan.now homes visit array) (range_with_len pos run.len)) marks.old marks.new result }
{
    let at = (plan.array(array).first_element + pos) as usize;
    let moved = visit_marks(&mut marks[at..at + run.len as usize], run.home, visit);
    u64::from(moved)
}

/// Elements that stand in steps are visited, one at a time.
fn visit_steps(
    marks: &mut [u8],
    plan: &Plan,
    homes: &[u32],
    array: u32,
    column: Column,
    visit: Visit,
) -> u64
    requires well { IsWellFormed plan.now }
    requires marks { length marks.old ≡ elements_in plan.now.arrays }
    requires homes { AreHomes plan.now homes.now }
    requires array { IsNumberIn plan.now.arrays array }
    requires column { HasPositions (element_count (array_row plan.now array).grid) column }
    requires visit { IsMarkedVisit visit }
    ensures { Visited (map (visit_at plan.now homes.now visit array) (positions_in column)) marks.old marks.new result }
{
    let mut moved = 0;
    let mut pos = column.first;
    for _i in 0..column.count {
        moved += visit_element(marks, plan, homes, array, pos, visit);
        pos = pos.wrapping_add_signed(column.step);
    }
    moved
}

/// The element at a position of an array is visited.
fn visit_element(
    marks: &mut [u8],
    plan: &Plan,
    homes: &[u32],
    array: u32,
    pos: u64,
    visit: Visit,
) -> u64
    requires well { IsWellFormed plan.now }
    requires marks { length marks.old ≡ elements_in plan.now.arrays }
    requires homes { AreHomes plan.now homes.now }
    requires array { IsNumberIn plan.now.arrays array }
    requires within { pos < element_count (array_row plan.now array).grid }
    requires visit { IsMarkedVisit visit }
    ensures { Visited (visit_at plan.now homes.now visit array pos ∷ []) marks.old marks.new result }
{
    let at = (plan.array(array).first_element + pos) as usize;
    let mark = marks[at];
    let home = home_for(plan, homes, array, pos, visit, mark);
    let seen = after_visit(mark, home, visit);
    marks[at] = seen.mark;
    u64::from(seen.moved)
}
