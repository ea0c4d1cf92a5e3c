//! The words of the command line.
ghost use Rattle.std.specs.Prelude.{◌≡◌, ◌*◌, ◌^◌, ◌<◌, IfOk};
ghost use Rattle.dd_views.specs.declared.shape.Shape.{Shape};
ghost use Rattle.dd_views.specs.Views.{IsViewOf};

use crate::elements::Elements;
use crate::tiles::Tiling;
use anyhow::{Result, bail};
use dd_views::{Part, Range, Shape, View, view_of};

/// How many tiles there are along an edge, and how long they are.
pub fn tiling_of(words: &[String]) -> Result<Tiling> {
    let [tiles, side] = words else {
        bail!("words: tiles TIMES TILES SIDE");
    };
    Ok(Tiling {
        tiles: tiles.parse()?,
        side: side.parse()?,
    })
}

/// How many elements there are, and how far it is from that of a task to that of the next.
pub fn elements_of(words: &[String]) -> Result<Elements> {
    let [count, step] = words else {
        bail!("words: elements TIMES COUNT STEP");
    };
    Ok(Elements {
        count: count.parse()?,
        step: step.parse()?,
    })
}

/// Two views of an array.
pub fn read_views(words: &[String]) -> Result<(View, View)>
    ensures { IfOk result (λ views. (shape : Shape) × IsViewOf shape views.0 × IsViewOf shape views.1) }
{
    let [rows, cols, views @ ..] = words else {
        bail!("words: views TIMES ROWS COLS ..");
    };
    let shape = read_shape(rows, cols)?;
    if views.len() < 7 {
        bail!("words: views TIMES ROWS COLS and two views");
    }
    let a = read_view(shape, &views[..7])?;
    let b = read_view(shape, &views[7..])?;
    Ok((a, b))
}

fn read_shape(rows: &String, cols: &String) -> Result<Shape>
    ensures { IfOk result (λ shape. shape.rows * shape.cols < 2 ^ 63) }
{
    let rows: u16 = rows.parse()?;
    let cols: u16 = cols.parse()?;
    Ok(Shape {
        rows: u32::from(rows),
        cols: u32::from(cols),
    })
}

fn read_view(shape: Shape, words: &[String]) -> Result<View>
    requires { shape.rows * shape.cols < 2 ^ 63 }
    ensures { IfOk result (IsViewOf shape) }
{
    let [top, down, bottom, left, across, right, part] = words else {
        bail!("a view has seven words");
    };
    let rows = Range::Steps {
        first: top.parse()?,
        step: down.parse()?,
        last: bottom.parse()?,
    };
    let cols = Range::Steps {
        first: left.parse()?,
        step: across.parse()?,
        last: right.parse()?,
    };
    match view_of(1, shape, rows, cols, read_part(part.as_str())?) {
        Ok(view) => Ok(view),
        Err(_) => bail!("no such view"),
    }
}

fn read_part(word: &str) -> Result<Part> {
    match word {
        "all" => Ok(Part::All),
        "lower" => Ok(Part::Lower),
        "upper" => Ok(Part::Upper),
        "unitlower" => Ok(Part::UnitLower),
        "unitupper" => Ok(Part::UnitUpper),
        "diag" => Ok(Part::Diag),
        _ => bail!("{word} is no part"),
    }
}
