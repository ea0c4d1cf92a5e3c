ghost use Rattle.std.specs.Prelude.{◌≡◌, ℕ, List, [], ◌∷◌, length};
ghost use Rattle.dd_kernels.specs.Shapes.{ShapesFit, size_of};
ghost use Rattle.dd_kernels.specs.Table.{results, IsPlain};

use crate::kernel::Kernel;
use crate::matrix::{gemm, gemv};
use crate::shape::Shape;
use crate::total::dot;

/// Runs a kernel of three accesses on their lists, wherever those stand: all write only the first. It takes no memory.
pub fn plain_on_three(
    k: Kernel,
    scalar: i64,
    shapes: (Shape, Shape, Shape),
    x: &mut [i64],
    y: &[i64],
    z: &[i64],
)
    requires plain { IsPlain k }
    requires fit { ShapesFit k (shapes.0 ∷ shapes.1 ∷ shapes.2 ∷ []) }
    requires first { length x.old ≡ size_of shapes.0 }
    requires second { length y.now ≡ size_of shapes.1 }
    requires third { length z.now ≡ size_of shapes.2 }
    ensures { x.new ∷ y.now ∷ z.now ∷ []
        ≡ results k scalar (shapes.0 ∷ shapes.1 ∷ shapes.2 ∷ []) (x.old ∷ y.now ∷ z.now ∷ []) }
{
    match k {
        Kernel::Dot => dot(x, y, z),
        Kernel::Gemm => gemm(x, y, z, shapes.1, shapes.2.cols as usize),
        Kernel::Gemv => gemv(x, y, z),
        _ => unreachable!(),
    }
}
