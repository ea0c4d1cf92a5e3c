//! The visits of tasks to the elements of their views.
ghost use Rattle.std.specs.Prelude.{◌≡◌, ◌^◌, ◌<◌, All, length};
ghost use Rattle.std.specs.List.{flat_map};
ghost use Rattle.dd_blocks.specs.Layout.{elements_in};
ghost use Rattle.dd_blocks.specs.Numbered.{IsNumberIn};
ghost use Rattle.dd_blocks.specs.WellFormed.{IsWellFormed};
ghost use Rattle.dd_transfers.specs.Homes.{AreHomes, IsViewIn};
ghost use Rattle.dd_transfers.specs.Marks.{IsMarkedVisit};
ghost use Rattle.dd_transfers.specs.Visits.{IsWalkable, Visited, access_visits, region_visits, space_of, task_visits, visits_by, visits_of};

use crate::columns::visit_column;
use crate::mark::Visit;
use dd_blocks::{AccessRow, Plan, TaskRow};
use dd_views::View;

/// The visits of the tasks of a region, and of its end.
pub(crate) fn visit_region(marks: &mut [u8], plan: &Plan, homes: &[u32], tasks: &[TaskRow]) -> u64
    requires well { IsWellFormed plan.now }
    requires marks { length marks.old ≡ elements_in plan.now.arrays }
    requires homes { AreHomes plan.now homes.now }
    requires tasks { All (IsWalkable plan.now) tasks.now }
    requires few { length (region_visits plan.now homes.now tasks.now) < 2 ^ 63 }
    ensures { Visited (region_visits plan.now homes.now tasks.now) marks.old marks.new result }
{
    let moved = visit_tasks(marks, plan, homes, tasks);
    let moved_home = leave_tasks(marks, plan, homes, tasks);
    moved + moved_home
}

/// The tasks read and write, one after the other.
fn visit_tasks(marks: &mut [u8], plan: &Plan, homes: &[u32], tasks: &[TaskRow]) -> u64
    requires well { IsWellFormed plan.now }
    requires marks { length marks.old ≡ elements_in plan.now.arrays }
    requires homes { AreHomes plan.now homes.now }
    requires tasks { All (IsWalkable plan.now) tasks.now }
    requires few { length (flat_map (task_visits plan.now homes.now) tasks.now) < 2 ^ 63 }
    ensures { Visited (flat_map (task_visits plan.now homes.now) tasks.now) marks.old marks.new result }
{
    let mut moved = 0;
    for task in tasks {
        moved += visit_task(marks, plan, homes, task);
    }
    moved
}

/// The elements of the tasks are left.
fn leave_tasks(marks: &mut [u8], plan: &Plan, homes: &[u32], tasks: &[TaskRow]) -> u64
    requires well { IsWellFormed plan.now }
    requires marks { length marks.old ≡ elements_in plan.now.arrays }
    requires homes { AreHomes plan.now homes.now }
    requires tasks { All (IsWalkable plan.now) tasks.now }
    requires few { length (flat_map (visits_by plan.now homes.now Visit.Leave) tasks.now) < 2 ^ 63 }
    ensures { Visited (flat_map (visits_by plan.now homes.now Visit.Leave) tasks.now) marks.old marks.new result }
{
    let mut moved = 0;
    for task in tasks {
        moved += visit_accesses(marks, plan, homes, task, Visit::Leave);
    }
    moved
}

/// A task reads, and after that it writes.
fn visit_task(marks: &mut [u8], plan: &Plan, homes: &[u32], task: &TaskRow) -> u64
    requires well { IsWellFormed plan.now }
    requires marks { length marks.old ≡ elements_in plan.now.arrays }
    requires homes { AreHomes plan.now homes.now }
    requires task { IsWalkable plan.now task.now }
    requires few { length (task_visits plan.now homes.now task.now) < 2 ^ 63 }
    ensures { Visited (task_visits plan.now homes.now task.now) marks.old marks.new result }
{
    let space = space_of(plan, task);
    let read = visit_accesses(marks, plan, homes, task, Visit::Read(space));
    let written = visit_accesses(marks, plan, homes, task, Visit::Write(space));
    read + written
}

/// The space in which a task runs.
fn space_of(plan: &Plan, task: &TaskRow) -> u32
    requires { IsNumberIn plan.now.procs task.now.proc }
    ensures { result ≡ space_of plan.now task.now }
{
    plan.proc(task.proc).space
}

/// All accesses of a task that the visit is of.
fn visit_accesses(marks: &mut [u8], plan: &Plan, homes: &[u32], task: &TaskRow, visit: Visit) -> u64
    requires well { IsWellFormed plan.now }
    requires marks { length marks.old ≡ elements_in plan.now.arrays }
    requires homes { AreHomes plan.now homes.now }
    requires task { IsWalkable plan.now task.now }
    requires visit { IsMarkedVisit visit }
    requires few { length (visits_by plan.now homes.now visit task.now) < 2 ^ 63 }
    ensures { Visited (visits_by plan.now homes.now visit task.now) marks.old marks.new result }
{
    let mut moved = 0;
    for access in task.accesses.as_slice() {
        moved += visit_access(marks, plan, homes, access, visit);
    }
    moved
}

/// An access, where the visit is of it.
fn visit_access(
    marks: &mut [u8],
    plan: &Plan,
    homes: &[u32],
    access: &AccessRow,
    visit: Visit,
) -> u64
    requires well { IsWellFormed plan.now }
    requires marks { length marks.old ≡ elements_in plan.now.arrays }
    requires homes { AreHomes plan.now homes.now }
    requires access { IsViewIn plan.now access.now.view }
    requires visit { IsMarkedVisit visit }
    ensures { Visited (access_visits plan.now homes.now visit access.now) marks.old marks.new result }
{
    if visit.is_of(access) {
        visit_view(marks, plan, homes, &access.view, visit)
    } else {
        0
    }
}

/// Each element of a view is visited.
fn visit_view(marks: &mut [u8], plan: &Plan, homes: &[u32], view: &View, visit: Visit) -> u64
    requires well { IsWellFormed plan.now }
    requires marks { length marks.old ≡ elements_in plan.now.arrays }
    requires homes { AreHomes plan.now homes.now }
    requires view { IsViewIn plan.now view.now }
    requires visit { IsMarkedVisit visit }
    ensures { Visited (visits_of plan.now homes.now visit view.now) marks.old marks.new result }
{
    let mut moved = 0;
    for j in 0..view.cols.count {
        moved += visit_column(marks, plan, homes, view.array, view.column(j), visit);
    }
    moved
}
