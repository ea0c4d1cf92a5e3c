//! Tiles that are gathered from a copy of a block and stored into it.
ghost use Rattle.std.specs.Prelude.{◌≡◌, ◌≤◌, false, length, IfOk, OnOk, IsTrue};
ghost use Rattle.dd_views.specs.IndexList.{index_list};
ghost use Rattle.dd_views.specs.Views.{IsViewOf};
ghost use Rattle.dd_blocks.specs.Elements.{Element, task_reads};
ghost use Rattle.dd_blocks.specs.Limits.{text_limit};
ghost use Rattle.dd_blocks.specs.Numbered.{IsNumberIn, array_row, task_row};
ghost use Rattle.dd_blocks.specs.Tasks.{shape_in};
ghost use Rattle.dd_blocks.specs.WellFormed.{IsWellFormed};
ghost use Rattle.dd_stamps.specs.Copies.{IsOfSameBlock};
ghost use Rattle.dd_stamps.specs.Works.{IsSameWork};
ghost use Rattle.dd_stamps.specs.declared.work.Stage.TheVariants.{Collecting, Ran};

use crate::taking::sum_of;
use anyhow::{Result, bail, ensure};
use dd_apply::apply;
use dd_blocks::{AccessRow, Plan, TaskRow};
use dd_check::accept;
use dd_kernels::Mode;
use dd_stamps::{Stamped, Work, fresh_fill};
use dd_views::View;
use std::alloc::{AllocError, Global};

/// Two tasks that write the first block of an array.
pub(crate) const BLOCK: &str = "array A 1024 1024 128 128 iota
region
task fill 1 Out(A[1:128,1:128])
task fill 2 Out(A[1:128,1:128])
end
";

/// Two tasks that write a tile across four blocks: a quarter of it is in the first.
pub(crate) const ACROSS: &str = "array A 1024 1024 128 128 iota
region
task fill 1 Out(A[65:192,65:192])
task fill 2 Out(A[65:192,65:192])
end
";

/// Gathers what the first block has of the tile, and stores what a task made of it, for both tasks in turn and so many times. The sum
/// of the values then, which wraps.
pub(crate) fn tile_times(alloc: Global, script: &str, times: u32) -> Result<i64>
    requires { length script.now ≤ text_limit }
{
    let made = plan_of(alloc, script)?;
    let plan = &made;
    let view = tile_of(plan)?;
    let first = work_of(alloc, plan, 1)?;
    let second = work_of(alloc, plan, 2)?;
    let mut copy = fresh_fill(alloc, plan, 1)?;
    let mut tile = vec![in alloc; 0; view.len() as usize]?;
    gather_and_store(&mut copy, &view, &mut tile, &first, &second, times)?;
    Ok(sum_of(copy.values()).wrapping_add(sum_of(&tile)))
}

// The Plan of a script with a block and two tasks.
fn plan_of(alloc: Global, script: &str) -> Result<Plan>
    requires { length script.now ≤ text_limit }
    ensures well { IfOk result IsWellFormed }
    ensures block { IfOk result (λ plan. IsNumberIn plan.blocks 1) }
    ensures first { IfOk result (λ plan. IsNumberIn plan.tasks 1) }
    ensures second { IfOk result (λ plan. IsNumberIn plan.tasks 2) }
{
    let Ok(plan) = accept(alloc, script.as_bytes()) else {
        bail!("no Plan");
    };
    ensure!(!plan.blocks.as_slice().is_empty(), "no block");
    ensure!(plan.tasks.as_slice().len() >= 2, "no two tasks");
    Ok(plan)
}

// What the first task writes.
fn tile_of(plan: &Plan) -> Result<View>
    requires well { IsWellFormed plan.now }
    requires first { IsNumberIn plan.now.tasks 1 }
    ensures named { IfOk result (λ v. IsNumberIn plan.now.arrays v.array) }
    ensures view { IfOk result (λ v. IsViewOf (shape_in (array_row plan.now v.array)) v) }
{
    let [access] = plan.task(1).accesses.as_slice() else {
        bail!("not one access");
    };
    Ok(access.view)
}

// The work of a task that reads nothing, once it was run.
fn work_of<'p>(alloc: Global, plan: &'p Plan, task: u32) -> Result<Work<'p>>
    requires well { IsWellFormed plan.now }
    requires known { IsNumberIn plan.now.tasks task }
    ensures plan { IfOk result (λ w. w.plan ≡ plan.entry) }
    ensures ran { IfOk result (λ w. w.stage ≡ Ran) }
{
    ensure!(writes_alone(plan.task(task)), "the task reads");
    let mut work = Work::new(alloc, plan, task, 1, 1, false)?;
    for block in plan.task(task).blocks.as_slice() {
        collect(alloc, &mut work, *block)?;
    }
    run(&mut work)?;
    Ok(work)
}

// Whether a task has one access, which only writes.
fn writes_alone(task: &TaskRow) -> bool
    ensures { IsTrue result → (e : Element) → task_reads task.now e ≡ false }
{
    matches!(
        task.accesses.as_slice(),
        [AccessRow {
            mode: Mode::Write,
            ..
        }]
    )
}

// Collects a block for a task that reads nothing.
fn collect(alloc: Global, work: &mut Work<'_>, block: u32) -> Result<()>
    requires well { IsWellFormed work.old.plan.now }
    requires stage { work.old.stage ≡ Collecting }
    requires alone { (e : Element) → task_reads (task_row work.old.plan.now work.old.task) e ≡ false }
    ensures stage { work.new.stage ≡ Collecting }
    ensures same { IsSameWork work.old work.new }
{
    let plan = work.plan();
    ensure!(
        block >= 1 && block as usize <= plan.blocks.as_slice().len(),
        "no such block"
    );
    ensure!(work.left().contains(&block), "the block isn't left");
    let copy = fresh_fill(alloc, plan, block)?;
    work.collect(&copy);
    Ok(())
}

// Runs the kernel of a work.
fn run(work: &mut Work<'_>) -> Result<()>
    requires well { IsWellFormed work.old.plan.now }
    requires stage { work.old.stage ≡ Collecting }
    ensures stage { OnOk result (work.new.stage ≡ Ran) }
    ensures same { IsSameWork work.old work.new }
{
    ensure!(work.left().is_empty(), "a block is left");
    let task = work.plan().task(work.task());
    let mut args = work.begin();
    apply(task.kernel, task.scalar, &mut args);
    work.done(args);
    Ok(())
}

fn gather_and_store<'p>(
    copy: &mut Stamped<'p>,
    view: &View,
    tile: &mut [i64],
    first: &Work<'p>,
    second: &Work<'p>,
    times: u32,
) -> Result<(), AllocError>
    requires well { IsWellFormed copy.old.plan.now }
    requires named { IsNumberIn copy.old.plan.now.arrays view.now.array }
    requires view { IsViewOf (shape_in (array_row copy.old.plan.now view.now.array)) view.now }
    requires long { length tile.old ≡ length (index_list view.now) }
    requires first { first.now.plan ≡ copy.old.plan }
    requires second { second.now.plan ≡ copy.old.plan }
    requires first_ran { first.now.stage ≡ Ran }
    requires second_ran { second.now.stage ≡ Ran }
{
    for _ in 0..times {
        copy.gather(view, tile);
        store(copy, first)?;
        copy.gather(view, tile);
        store(copy, second)?;
    }
    Ok(())
}

// Stores what a work made.
fn store<'p>(copy: &mut Stamped<'p>, work: &Work<'p>) -> Result<(), AllocError>
    requires well { IsWellFormed copy.old.plan.now }
    requires plan { work.now.plan ≡ copy.old.plan }
    requires ran { work.now.stage ≡ Ran }
    ensures { IsOfSameBlock copy.old copy.new }
{
    let Some(runs) = copy.versions().len().checked_mul(2) else {
        return Err(AllocError);
    };
    copy.reserve(runs)?;
    copy.store_outputs(work);
    Ok(())
}
