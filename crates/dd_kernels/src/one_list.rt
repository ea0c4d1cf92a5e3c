ghost use Rattle.std.specs.Prelude.{◌≡◌, ℕ, List, [], ◌∷◌, length};
ghost use Rattle.dd_kernels.specs.Shapes.{ShapesFit, size_of};
ghost use Rattle.dd_kernels.specs.Table.{results, IsPlain};

use crate::element_wise::{addk, fill, iota, neg, scale};
use crate::kernel::Kernel;
use crate::ordered::{rev, rot, scan, sort};
use crate::shape::Shape;

/// Runs a kernel of one access on its list, wherever that stands. It takes no memory.
pub fn plain_on_one(k: Kernel, scalar: i64, shape: Shape, x: &mut [i64])
    requires plain { IsPlain k }
    requires fit { ShapesFit k (shape ∷ []) }
    requires filled { length x.old ≡ size_of shape }
    ensures { x.new ∷ [] ≡ results k scalar (shape ∷ []) (x.old ∷ []) }
{
    match k {
        Kernel::Fill => fill(x, scalar),
        Kernel::Addk => addk(x, scalar),
        Kernel::Scale => scale(x, scalar),
        Kernel::Neg => neg(x),
        Kernel::Rev => rev(x),
        Kernel::Rot => rot(x, scalar),
        Kernel::Sort => sort(x),
        Kernel::Scan => scan(x),
        Kernel::Iota => iota(x, scalar),
        _ => unreachable!(),
    }
}
