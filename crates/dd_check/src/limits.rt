//! Which limit a statement would pass.
ghost use Rattle.std.specs.Prelude.{◌≡◌, ◌≢◌, ℕ, ◌*◌, ◌≤◌, List, MatchOption, None, Some, false, length};
ghost use Rattle.dd_blocks.specs.Grids.{IsGrid, element_count};
ghost use Rattle.dd_blocks.specs.Limits.{edge_limit};
ghost use Rattle.dd_check.specs.Above.{array_named};
ghost use Rattle.dd_check.specs.Amounts.{amount_alone, amounts_of_array, amounts_of_touch};
ghost use Rattle.dd_check.specs.Chain.{is_task, name_kinds};
ghost use Rattle.dd_check.specs.Drafts.{IsSoundDraft, above_of};
ghost use Rattle.dd_check.specs.Faults.{AreClear, IsClear};
ghost use Rattle.dd_check.specs.Kinds.{AreAmounts, HasTooMany, IsMisplaced, amounts_of_task, limit_passed};
ghost use Rattle.dd_check.specs.Seen.{AreSeen};

use crate::array::{array_of, grid_at};
use crate::draft::Draft;
use crate::edges::grid_of;
use crate::kind::Kind;
use crate::opened::Opened;
use dd_blocks::limits::{
    ARRAYS_LIMIT, BLOCKS_LIMIT, ELEMENTS_LIMIT, PROCS_LIMIT, REGION_ELEMENTS_LIMIT,
    REGION_TASKS_LIMIT, SPACES_LIMIT, TOUCHES_LIMIT,
};
use dd_blocks::{Grid, Name, TaskRow};
use dd_script::Statement;
use dd_touch::access_elements;

/// The limit, where the amount is above it.
fn over(amount: u64, limit: u64) -> Option<u64>
    ensures { result ≡ limit_passed (amount_alone amount limit) }
{
    if amount > limit { Some(limit) } else { None }
}

/// The first limit that one more array passes.
fn passed_by_array(draft: &Draft, grid: &Grid) -> Option<u64>
    requires sound { IsSoundDraft draft.now }
    requires grid { IsGrid grid.now }
    requires small { element_count grid.now ≤ edge_limit * edge_limit }
    ensures { result ≡ limit_passed (amounts_of_array draft.now.plan grid.now) }
{
    let arrays = draft.plan.arrays.as_slice().len() as u64 + 1;
    let elements = draft.elements + u64::from(grid.rows) * u64::from(grid.cols);
    let blocks = draft.plan.blocks.as_slice().len() as u64 + grid.blocks();
    over(arrays, ARRAYS_LIMIT)
        .or(over(elements, ELEMENTS_LIMIT))
        .or(over(blocks, BLOCKS_LIMIT))
}

/// The limit on touches, where all blocks of an array pass it and no region is open.
fn passed_by_touch(draft: &Draft, name: &Name) -> Option<u64>
    requires sound { IsSoundDraft draft.now }
    requires known { array_named (above_of draft.now) name.now ≢ None }
    requires closed { draft.now.opened ≡ None }
    ensures { result ≡ limit_passed (amounts_of_touch (above_of draft.now) name.now) }
{
    let grid = grid_at(draft, array_of(draft, name));
    over(draft.touches + grid.blocks(), TOUCHES_LIMIT)
}

/// The first limit that the amounts of a statement pass, other than a task.
fn first_passed(draft: &Draft, x: &Statement) -> Option<u64>
    requires sound { IsSoundDraft draft.now }
    requires other { is_task x.now ≡ false }
    requires clear { (n : ℕ) → AreClear n (above_of draft.now) x.now name_kinds }
    requires placed { ¬ IsMisplaced (above_of draft.now) x.now }
    ensures { (n : ℕ) (amounts : List (ℕ × ℕ)) → AreAmounts n (above_of draft.now) x.now amounts → result ≡ limit_passed amounts }
{
    match x {
        Statement::Space { .. } => over(
            draft.plan.spaces.as_slice().len() as u64 + 1,
            SPACES_LIMIT,
        ),
        Statement::Proc { .. } => over(draft.plan.procs.as_slice().len() as u64 + 1, PROCS_LIMIT),
        Statement::Array {
            rows,
            cols,
            brows,
            bcols,
            ..
        } => passed_by_array(draft, &grid_of(*rows, *cols, *brows, *bcols)),
        Statement::MoveTo { name, .. } | Statement::Print(name) | Statement::Sum(name) => {
            passed_by_touch(draft, name)
        }
        _ => None,
    }
}

/// The first limit that a statement passes, other than a task, where it may stand.
pub(crate) fn passed_by(draft: &Draft, x: &Statement) -> Option<u64>
    requires sound { IsSoundDraft draft.now }
    requires other { is_task x.now ≡ false }
    requires clear { (n : ℕ) → AreClear n (above_of draft.now) x.now name_kinds }
    requires placed { ¬ IsMisplaced (above_of draft.now) x.now }
    ensures { MatchOption result
        ((n : ℕ) → IsClear n (above_of draft.now) x.now Kind.TooMany)
        (λ limit. (n : ℕ) → HasTooMany n (above_of draft.now) x.now limit) }
{
    first_passed(draft, x)
}

/// The first limit that one more task of the open region passes.
pub(crate) fn passed_by_task(draft: &Draft, region: &Opened, task: &TaskRow) -> Option<u64>
    requires sound { IsSoundDraft draft.now }
    requires opened { draft.now.opened ≡ Some region.now }
    requires views { AreSeen draft.now.plan task.now.accesses }
    requires few { length task.now.accesses ≤ 3 }
    ensures { result ≡ limit_passed (amounts_of_task (above_of draft.now) task.now) }
{
    let tasks = region.tasks.len() as u64 + 1;
    let elements = region.elements + access_elements(task.accesses.as_slice());
    let touches = draft.touches + region.touches + task.blocks.as_slice().len() as u64;
    over(tasks, REGION_TASKS_LIMIT)
        .or(over(elements, REGION_ELEMENTS_LIMIT))
        .or(over(touches, TOUCHES_LIMIT))
}
