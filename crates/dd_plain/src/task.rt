//! One task after the other.
ghost use Rattle.std.specs.Prelude.{◌≡◌, false, length, map, OnOk, IfOk, All};
ghost use Rattle.std.specs.List.{fold};
ghost use Rattle.dd_views.specs.IndexList.{index_list};
ghost use Rattle.dd_meaning.specs.Steps.{step};
ghost use Rattle.dd_plain.specs.Lending.{AreHeld, AreThere, all_back_in, back_in, held, is_lent, without, without_all};
ghost use Rattle.dd_plain.specs.Lists.{lists_of};
ghost use Rattle.dd_plain.specs.Runs.{AreBeside};
ghost use Rattle.dd_plain.specs.Sizes.{CanRun, HasSizeOf, HasSizes, IsInArray};

use crate::computing::{compute, kernel_shape, run_beside};
use crate::gathering::gather;
use crate::lending::is_lent;
use crate::runs::{Segment, beside};
use crate::storing::store;
use dd_blocks::{AccessRow, ArrayRow, TaskRow};
use std::alloc::{AllocError, Global};
use std::mem::replace;

/// Runs tasks one after the other on the arrays of a world.
pub(crate) fn run_tasks(
    alloc: Global,
    arrays: &[ArrayRow],
    world: &mut [Vec<i64>],
    tasks: &[TaskRow],
) -> Result<(), AllocError>
    requires can { All (CanRun arrays.now) tasks.now }
    requires sizes { HasSizes arrays.now (lists_of world.old) }
    ensures stepped { OnOk result (lists_of world.new ≡ fold step (lists_of world.old) tasks.now) }
    ensures sizes { OnOk result (HasSizes arrays.now (lists_of world.new)) }
{
    for task in tasks {
        run_task(alloc, arrays, world, task)?;
    }
    Ok(())
}

/// Runs a task: in place where its two accesses share only their array, or else on what it holds of its accesses.
fn run_task(
    alloc: Global,
    arrays: &[ArrayRow],
    world: &mut [Vec<i64>],
    task: &TaskRow,
) -> Result<(), AllocError>
    requires can { CanRun arrays.now task.now }
    requires sizes { HasSizes arrays.now (lists_of world.old) }
    ensures stepped { OnOk result (lists_of world.new ≡ step (lists_of world.old) task.now) }
    ensures sizes { OnOk result (HasSizes arrays.now (lists_of world.new)) }
{
    match beside(task.accesses.as_slice()) {
        Some(at) => {
            run_in_place(arrays, world, task, at);
            Ok(())
        }
        None => run_held(alloc, arrays, world, task),
    }
}

/// Runs a task whose two accesses are runs of one array, which are apart.
fn run_in_place(arrays: &[ArrayRow], world: &mut [Vec<i64>], task: &TaskRow, at: (Segment, Segment))
    requires can { CanRun arrays.now task.now }
    requires sizes { HasSizes arrays.now (lists_of world.old) }
    requires beside { AreBeside task.now.accesses at.0 at.1 }
    ensures { lists_of world.new ≡ step (lists_of world.old) task.now }
{
    let [first, second] = task.accesses.as_slice() else {
        unreachable!();
    };
    let shapes = (kernel_shape(&first.view), kernel_shape(&second.view));
    let place = first.view.array as usize - 1;
    run_beside(task, shapes, at, &mut world[place]);
}

/// Runs a task: what it holds of its accesses is taken, its kernel computes, and what it wrote comes back.
fn run_held(
    alloc: Global,
    arrays: &[ArrayRow],
    world: &mut [Vec<i64>],
    task: &TaskRow,
) -> Result<(), AllocError>
    requires can { CanRun arrays.now task.now }
    requires sizes { HasSizes arrays.now (lists_of world.old) }
    ensures stepped { OnOk result (lists_of world.new ≡ step (lists_of world.old) task.now) }
    ensures sizes { OnOk result (HasSizes arrays.now (lists_of world.new)) }
{
    let accesses = task.accesses.as_slice();
    let mut held = take_all(alloc, arrays, world, accesses)?;
    compute(task, &mut held);
    return_all(alloc, arrays, world, accesses, &mut held);
    Ok(())
}

/// What a task holds of each access. Arrays that are lent leave the world.
fn take_all(
    alloc: Global,
    arrays: &[ArrayRow],
    world: &mut [Vec<i64>],
    accesses: &[AccessRow],
) -> Result<Vec<Vec<i64>>, AllocError>
    requires in_arrays { All (IsInArray arrays.now) accesses.now }
    requires sizes { HasSizes arrays.now (lists_of world.old) }
    ensures lists { IfOk result (λ bufs. lists_of bufs.items ≡ map (held (is_lent accesses.now) (lists_of world.old)) accesses.now) }
    ensures world { OnOk result (lists_of world.new ≡ without_all (is_lent accesses.now) (lists_of world.old) accesses.now) }
{
    let mut bufs = Vec::new(alloc);
    for access in accesses {
        bufs.push(take(alloc, arrays, world, accesses, access)?)?;
    }
    Ok(bufs)
}

/// What a task holds of an access: its array, which leaves the world, where that is lent, or else its values.
fn take(
    alloc: Global,
    arrays: &[ArrayRow],
    world: &mut [Vec<i64>],
    accesses: &[AccessRow],
    access: &AccessRow,
) -> Result<Vec<i64>, AllocError>
    requires in_array { IsInArray arrays.now access.now }
    requires paired { length world.old ≡ length arrays.now }
    requires size { HasSizeOf arrays.now (lists_of world.old) access.now }
    ensures values { IfOk result (λ buf. buf.items ≡ held (is_lent accesses.now) (lists_of world.old) access.now) }
    ensures world { OnOk result (lists_of world.new ≡ without (is_lent accesses.now) (lists_of world.old) access.now) }
{
    let place = access.view.array as usize - 1;
    if is_lent(accesses, access) {
        return Ok(replace(&mut world[place], Vec::new(alloc)));
    }
    let mut buf = Vec::with_capacity(alloc, access.view.len() as usize)?;
    gather(&world[place], &access.view, &mut buf)?;
    Ok(buf)
}

/// What a task held of accesses comes back, in the order of these.
fn return_all(
    alloc: Global,
    arrays: &[ArrayRow],
    world: &mut [Vec<i64>],
    accesses: &[AccessRow],
    bufs: &mut [Vec<i64>],
)
    requires in_arrays { All (IsInArray arrays.now) accesses.now }
    requires paired { length world.old ≡ length arrays.now }
    requires there { AreThere arrays.now (is_lent accesses.now) (lists_of world.old) accesses.now }
    requires held { AreHeld (is_lent accesses.now) accesses.now (lists_of bufs.old) }
    ensures { lists_of world.new ≡ all_back_in (is_lent accesses.now) (lists_of world.old) accesses.now (lists_of bufs.old) }
{
    for (i, access) in accesses.iter().enumerate() {
        let buf = replace(&mut bufs[i], Vec::new(alloc));
        return_to(arrays, world, accesses, access, buf);
    }
}

/// What was held of an access comes back: as its array where that was lent, or else to its positions, where it is
/// written.
fn return_to(
    arrays: &[ArrayRow],
    world: &mut [Vec<i64>],
    accesses: &[AccessRow],
    access: &AccessRow,
    buf: Vec<i64>,
)
    requires in_array { IsInArray arrays.now access.now }
    requires paired { length world.old ≡ length arrays.now }
    requires there { is_lent accesses.now access.now ≡ false → HasSizeOf arrays.now (lists_of world.old) access.now }
    requires long { is_lent accesses.now access.now ≡ false → length buf.items ≡ length (index_list access.now.view) }
    ensures { lists_of world.new ≡ back_in (is_lent accesses.now) (lists_of world.old) access.now buf.items }
{
    let place = access.view.array as usize - 1;
    if is_lent(accesses, access) {
        world[place] = buf;
    } else if access.writes() {
        store(&mut world[place], &access.view, &buf);
    }
}
