//! The words of the command line.
ghost use Rattle.std.specs.Prelude.{IfOk};
ghost use Rattle.dd_kernels.specs.Shapes.{ShapesFit};

use anyhow::{Result, bail, ensure};
use dd_kernels::{Kernel, Shape, kernel_named, shapes_fit};
use std::alloc::Global;

/// Which kernel is run, on what, and how often.
#[derive(Debug, Drop)]
pub struct Order {
    pub kernel: Kernel,
    pub rounds: u32,
    pub times: u32,
    pub scalar: i64,
    pub shapes: Vec<Shape>,
}

/// Reads the words; an error where they name no kernel, or shapes that it doesn't take.
pub fn read_order(alloc: Global, words: &[String]) -> Result<Order>
    ensures { IfOk result (λ order. ShapesFit order.kernel order.shapes.items) }
{
    let [name, rounds, times, scalar, sides @ ..] = words else {
        bail!("words: KERNEL ROUNDS TIMES SCALAR ROWS COLS ..");
    };
    let kernel = read_kernel(name.as_str())?;
    let shapes = read_shapes(alloc, sides)?;
    ensure!(shapes_fit(kernel, &shapes), "the kernel takes other shapes");
    Ok(Order {
        kernel,
        rounds: rounds.parse()?,
        times: times.parse()?,
        scalar: scalar.parse()?,
        shapes,
    })
}

fn read_kernel(name: &str) -> Result<Kernel> {
    match kernel_named(name.as_bytes()) {
        Some(kernel) => Ok(kernel),
        None => bail!("{name} is no kernel"),
    }
}

fn read_shapes(alloc: Global, sides: &[String]) -> Result<Vec<Shape>> {
    let mut shapes = Vec::new(alloc);
    for pair in sides.chunks(2) {
        let [rows, cols] = pair else {
            bail!("rows without columns");
        };
        shapes.push(Shape {
            rows: rows.parse()?,
            cols: cols.parse()?,
        })?;
    }
    Ok(shapes)
}
