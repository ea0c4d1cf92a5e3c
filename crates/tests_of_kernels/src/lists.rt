//! What the tests share: lists, the shapes that they fill, and the ways to run a kernel on buffers.
ghost use Rattle.std.specs.Prelude.{◌≡◌, ◌↔◌, ℕ, List, map, length, IsTrue};
ghost use Rattle.dd_kernels.specs.Shapes.{HaveShapes, ShapesFit, size_of};

use dd_apply::apply;
use dd_kernels::{Args, Kernel, Shape, is_plain, plain};
use dd_packed::packed;

/// Rows and columns.
pub type Size = (u32, u32);

/// A list of numbers.
pub type Row = &'static [i64];

pub const LEAST: i64 = -9223372036854775808;

pub const GREATEST: i64 = 9223372036854775807;

/// Who runs a kernel on buffers: the crate that has it, or `apply`.
#[derive(Clone, Copy)]
pub enum Way {
    Own,
    Apply,
}

pub fn shape_of(size: Size) -> Shape {
    Shape {
        rows: size.0,
        cols: size.1,
    }
}

/// Whether a list has the length of a shape.
pub fn fills(shape: Shape, list: &[i64]) -> bool
    ensures { IsTrue result ↔ (length list.now ≡ size_of shape) }
{
    list.len() == shape.rows as usize * shape.cols as usize
}

/// Runs a kernel on buffers. One on packed triangles has no scalar.
pub fn run_by(way: Way, kernel: Kernel, scalar: i64, args: &mut Args)
    requires fit { ShapesFit kernel args.old.shapes.items }
    requires filled { HaveShapes args.old.shapes.items (map (λ b. b.items) args.old.bufs.items) }
    ensures shapes { args.new.shapes.items ≡ args.old.shapes.items }
    ensures filled { HaveShapes args.new.shapes.items (map (λ b. b.items) args.new.bufs.items) }
{
    match way {
        Way::Own if is_plain(kernel) => plain(kernel, scalar, args),
        Way::Own => packed(kernel, args),
        Way::Apply => apply(kernel, scalar, args),
    }
}
