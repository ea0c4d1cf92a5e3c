//! Tasks on elements of one array.
ghost use Rattle.std.specs.Prelude.{◌≡◌, ◌*◌, ◌^◌, ◌<◌, IfOk, length};
ghost use Rattle.dd_views.specs.declared.shape.Shape.{Shape};
ghost use Rattle.dd_views.specs.Views.{IsViewOf};
ghost use Rattle.dd_alias.specs.Shapes.{HaveOneShape};
ghost use Rattle.alias_bench.specs.Tiles.{AreInArray};

use crate::task::task_with;
use anyhow::{Result, bail};
use dd_blocks::{AccessRow, TaskRow};
use dd_kernels::Mode;
use dd_views::{Part, Range, Shape, View, view_of};
use std::alloc::Global;

/// A column of elements, and which of them the tasks are on.
#[derive(Clone, Copy, Debug)]
pub struct Elements {
    /// How many elements there are, and how many tasks.
    pub count: u16,
    /// How far it is from the element of a task to that of the next one. Behind the last element comes the first.
    pub step: u16,
}

/// Tasks that read and write one element each.
pub fn tasks_on(alloc: Global, elements: Elements) -> Result<Vec<TaskRow>>
    ensures few { IfOk result (λ tasks. length tasks.items < 2 ^ 32) }
    ensures shapes { IfOk result (λ tasks. HaveOneShape tasks.items) }
{
    let shape = column(elements.count);
    let count = u32::from(elements.count);
    let mut tasks = Vec::new(alloc);
    for number in 0..count {
        let index = number * u32::from(elements.step) % count;
        let element = element(shape, index)?;
        tasks.push(task_on(alloc, shape, element)?)?;
    }
    Ok(tasks)
}

/// The shape of the array.
fn column(count: u16) -> Shape
    ensures { result.rows * result.cols < 2 ^ 63 }
{
    Shape {
        rows: u32::from(count),
        cols: 1,
    }
}

fn task_on(alloc: Global, shape: Shape, element: View) -> Result<TaskRow>
    requires { IsViewOf shape element }
    ensures { IfOk result (λ task. AreInArray shape task.accesses) }
{
    let mut accesses = Vec::new(alloc);
    accesses.push(AccessRow {
        view: element,
        mode: Mode::Both,
    })?;
    Ok(task_with(alloc, accesses))
}

/// The element at an index, from 0.
fn element(shape: Shape, index: u32) -> Result<View>
    requires { shape.rows * shape.cols < 2 ^ 63 }
    ensures { IfOk result (IsViewOf shape) }
{
    let row = Range::One(i64::from(index) + 1);
    match view_of(1, shape, row, Range::All, Part::All) {
        Ok(view) => Ok(view),
        Err(_) => bail!("no such element"),
    }
}
