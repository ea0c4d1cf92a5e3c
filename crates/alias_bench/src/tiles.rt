//! Tasks on tiles of one array.
ghost use Rattle.std.specs.Prelude.{◌≡◌, ◌*◌, ◌^◌, ◌<◌, ◌≤◌, All, IfOk, length};
ghost use Rattle.dd_views.specs.declared.shape.Shape.{Shape};
ghost use Rattle.dd_views.specs.Views.{IsViewOf};
ghost use Rattle.dd_alias.specs.Shapes.{HaveOneShape};
ghost use Rattle.alias_bench.specs.Tiles.{AreInArray};

use crate::task::task_with;
use anyhow::{Result, bail};
use dd_blocks::{AccessRow, TaskRow};
use dd_kernels::Mode;
use dd_views::{Part, Range, Shape, View, view_of};
use std::alloc::Global;

/// An array in tiles.
#[derive(Clone, Copy, Debug)]
pub struct Tiling {
    /// How many there are along each edge.
    pub tiles: u8,
    /// The rows and columns of each.
    pub side: u8,
}

/// A task for each tile: it writes the tile, and reads one of its row and one of its column.
pub fn tasks_of(alloc: Global, tiling: Tiling) -> Result<Vec<TaskRow>>
    ensures few { IfOk result (λ tasks. length tasks.items < 2 ^ 32) }
    ensures shapes { IfOk result (λ tasks. HaveOneShape tasks.items) }
{
    let shape = square(u16::from(tiling.tiles) * u16::from(tiling.side));
    let tiles = u32::from(tiling.tiles);
    let mut tasks = Vec::new(alloc);
    for number in 0..tiles * tiles {
        let row = number / tiles;
        let col = number % tiles;
        let middle = row.wrapping_add(col) % tiles;
        let written = tile(shape, tiling.side, row, col)?;
        let left = tile(shape, tiling.side, row, middle)?;
        let right = tile(shape, tiling.side, middle, col)?;
        tasks.push(task_on(alloc, shape, written, left, right)?)?;
    }
    Ok(tasks)
}

/// The shape of the array.
fn square(edge: u16) -> Shape
    ensures { result.rows * result.cols < 2 ^ 63 }
{
    let edge = u32::from(edge);
    Shape {
        rows: edge,
        cols: edge,
    }
}

fn task_on(alloc: Global, shape: Shape, written: View, left: View, right: View) -> Result<TaskRow>
    requires written { IsViewOf shape written }
    requires left { IsViewOf shape left }
    requires right { IsViewOf shape right }
    ensures { IfOk result (λ task. AreInArray shape task.accesses) }
{
    let mut accesses = Vec::new(alloc);
    accesses.push(AccessRow {
        view: written,
        mode: Mode::Both,
    })?;
    accesses.push(AccessRow {
        view: left,
        mode: Mode::Read,
    })?;
    accesses.push(AccessRow {
        view: right,
        mode: Mode::Read,
    })?;
    Ok(task_with(alloc, accesses))
}

/// The tile of a row and a column, both from 0.
fn tile(shape: Shape, side: u8, row: u32, col: u32) -> Result<View>
    requires { shape.rows * shape.cols < 2 ^ 63 }
    ensures { IfOk result (IsViewOf shape) }
{
    match view_of(1, shape, range(side, row), range(side, col), Part::All) {
        Ok(view) => Ok(view),
        Err(_) => bail!("no such tile"),
    }
}

/// The numbers of one tile.
fn range(side: u8, index: u32) -> Range {
    let side = i64::from(side);
    let before = side * i64::from(index);
    Range::Run {
        first: before + 1,
        last: before + side,
    }
}
