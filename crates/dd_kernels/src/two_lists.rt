ghost use Rattle.std.specs.Prelude.{◌≡◌, ℕ, List, [], ◌∷◌, length};
ghost use Rattle.dd_kernels.specs.Shapes.{ShapesFit, size_of};
ghost use Rattle.dd_kernels.specs.Table.{results, IsPlain};

use crate::element_wise::{add, axpy, copy, max, min, mul, sub, swap, xor};
use crate::kernel::Kernel;
use crate::matrix::copyt;
use crate::shape::Shape;
use crate::stencil::stencil5;
use crate::total::sum;

/// Runs a kernel of two accesses on their lists, wherever those stand. It takes no memory.
pub fn plain_on_two(k: Kernel, scalar: i64, shapes: (Shape, Shape), x: &mut [i64], y: &mut [i64])
    requires plain { IsPlain k }
    requires fit { ShapesFit k (shapes.0 ∷ shapes.1 ∷ []) }
    requires first { length x.old ≡ size_of shapes.0 }
    requires second { length y.old ≡ size_of shapes.1 }
    ensures { x.new ∷ y.new ∷ [] ≡ results k scalar (shapes.0 ∷ shapes.1 ∷ []) (x.old ∷ y.old ∷ []) }
{
    match k {
        Kernel::Copy => copy(x, y),
        Kernel::Copyt => copyt(x, y, shapes.1),
        Kernel::Add => add(x, y),
        Kernel::Sub => sub(x, y),
        Kernel::Mul => mul(x, y),
        Kernel::Axpy => axpy(x, y, scalar),
        Kernel::Xor => xor(x, y),
        Kernel::Min => min(x, y),
        Kernel::Max => max(x, y),
        Kernel::Sum => sum(x, y),
        Kernel::Swap => swap(x, y),
        Kernel::Stencil5 => stencil5(x, y, shapes.1),
        _ => unreachable!(),
    }
}
