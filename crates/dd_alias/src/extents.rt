//! The extents of the accesses of tasks.
ghost use Rattle.std.specs.Prelude.{◌≡◌, ◌++◌, ℕ, ◌^◌, ◌<◌, List, length, drop, take, IfOk, OnOk};
ghost use Rattle.dd_views.specs.declared.shape.Shape.{Shape};
ghost use Rattle.dd_alias.specs.Shapes.{AreViewsBy, HaveOneShape};
ghost use Rattle.dd_alias.specs.Waits.{AreOfTasks, AreOwn};

use crate::extent::Extent;
use dd_blocks::{AccessRow, TaskRow};
use std::alloc::{AllocError, Global};

/// Those of all tasks, one task after another.
pub fn extents_of<'t>(alloc: Global, tasks: &'t [TaskRow]) -> Result<Vec<Extent<'t>>, AllocError>
    requires shapes { HaveOneShape tasks.now }
    requires few { length tasks.now < 2 ^ 32 }
    ensures { IfOk result (λ extents. AreOfTasks tasks.now (length tasks.now) extents.items) }
{
    let mut extents = Vec::new(alloc);
    for place in 0..tasks.len() {
        let accesses = tasks[place].accesses.as_slice();
        add_extents(place as u32 + 1, accesses, &mut extents)?;
    }
    Ok(extents)
}

/// Adds those of one task, by its number.
pub fn add_extents<'t>(
    number: u32,
    accesses: &'t [AccessRow],
    extents: &mut Vec<Extent<'t>>,
) -> Result<(), AllocError>
    requires { (shape_at : ℕ → Shape) × AreViewsBy shape_at accesses.now }
    ensures before { OnOk result (take (length extents.old.items) extents.new.items ≡ extents.old.items) }
    ensures added { OnOk result (AreOwn number accesses.now (drop (length extents.old.items) extents.new.items)) }
{
    for access in accesses {
        if let Some(extent) = Extent::of(number, access) {
            extents.push(extent)?;
        }
    }
    Ok(())
}
