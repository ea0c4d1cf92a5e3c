//! Tasks for tests, on columns of 16 numbers.
ghost use Rattle.std.specs.Prelude.{ℕ, IfOk, OnOk};
ghost use Rattle.dd_views.specs.declared.shape.Shape.{Shape};
ghost use Rattle.dd_alias.specs.Shapes.{AreViewsBy, HaveOneShape};

use dd_blocks::{AccessRow, TaskRow};
use dd_kernels::{Kernel, Mode};
use dd_views::{Items, Part, Range, Shape, view_of};
use std::alloc::{AllocError, Global};

/// The number of an array, the first row of it that is used, the step and the last, and how they are used.
pub type Access = (u32, (i64, i64, i64), Mode);

pub fn sample(alloc: Global, accesses: &[Access]) -> Result<TaskRow, AllocError>
    ensures { IfOk result (λ task. AreViewsBy (λ (n : ℕ). record { rows = 16; cols = 1 }) task.accesses) }
{
    let mut rows = Vec::new(alloc);
    for access in accesses {
        add_access(&mut rows, *access)?;
    }
    Ok(TaskRow {
        line: 0,
        region: 1,
        kernel: Kernel::Copy,
        scalar: 0,
        accesses: Items::of(rows),
        proc: 1,
        deps: Items::of(Vec::new(alloc)),
        blocks: Items::of(Vec::new(alloc)),
        charge: 0,
    })
}

/// A range that is no range of the array ends the test.
fn add_access(rows: &mut Vec<AccessRow>, access: Access) -> Result<(), AllocError>
    requires { AreViewsBy (λ (n : ℕ). record { rows = 16; cols = 1 }) rows.old.items }
    ensures { OnOk result (AreViewsBy (λ (n : ℕ). record { rows = 16; cols = 1 }) rows.new.items) }
{
    let (array, (first, step, last), mode) = access;
    let shape = Shape { rows: 16, cols: 1 };
    let range = Range::Steps { first, step, last };
    let Ok(view) = view_of(array, shape, range, Range::All, Part::All) else {
        return Err(AllocError);
    };
    rows.push(AccessRow { view, mode })?;
    Ok(())
}

pub fn samples(alloc: Global, tasks: &[&[Access]]) -> Result<Vec<TaskRow>, AllocError>
    ensures { IfOk result (λ rows. HaveOneShape rows.items) }
{
    let mut rows = Vec::new(alloc);
    for accesses in tasks {
        rows.push(sample(alloc, accesses)?)?;
    }
    Ok(rows)
}
