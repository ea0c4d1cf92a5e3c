ghost use Rattle.std.specs.Prelude.{◌≡◌, ℤ, List, [], ◌∷◌, length};
ghost use Rattle.dd_kernels.specs.Agreement.{AgreeWhereOnlyRead, AgreeWhereRead};
ghost use Rattle.dd_kernels.specs.Shapes.{ShapesFit, size_of};
ghost use Rattle.dd_kernels.specs.Table.{results};

use dd_kernels::{Kernel, Shape, is_plain, plain_on_one, plain_on_three, plain_on_two};
use dd_packed::packed_on_two;

/// Runs a kernel of one access on its list, wherever that stands. A kernel without a scalar ignores it. It takes no
/// memory.
pub fn apply_to_one(k: Kernel, scalar: i64, shape: Shape, x: &mut [i64])
    requires fit { ShapesFit k (shape ∷ []) }
    requires filled { length x.old ≡ size_of shape }
    ensures results { x.new ∷ [] ≡ results k scalar (shape ∷ []) (x.old ∷ []) }

    // A list that the kernel only writes counts for nothing.
    ensures overwritten { (others : List (List ℤ)) → AgreeWhereRead k (x.old ∷ []) others
        → x.new ∷ [] ≡ results k scalar (shape ∷ []) others }
{
    plain_on_one(k, scalar, shape, x);
}

/// Runs a kernel of two accesses on their lists, wherever those stand.
pub fn apply_to_two(k: Kernel, scalar: i64, shapes: (Shape, Shape), x: &mut [i64], y: &mut [i64])
    requires fit { ShapesFit k (shapes.0 ∷ shapes.1 ∷ []) }
    requires first { length x.old ≡ size_of shapes.0 }
    requires second { length y.old ≡ size_of shapes.1 }
    ensures results { x.new ∷ y.new ∷ [] ≡ results k scalar (shapes.0 ∷ shapes.1 ∷ []) (x.old ∷ y.old ∷ []) }

    // A list that the kernel only reads stays, and one that it only writes counts for nothing.
    ensures stays { AgreeWhereOnlyRead k (x.old ∷ y.old ∷ []) (x.new ∷ y.new ∷ []) }
    ensures overwritten { (others : List (List ℤ)) → AgreeWhereRead k (x.old ∷ y.old ∷ []) others
        → x.new ∷ y.new ∷ [] ≡ results k scalar (shapes.0 ∷ shapes.1 ∷ []) others }
{
    if is_plain(k) {
        plain_on_two(k, scalar, shapes, x, y);
    } else {
        packed_on_two(k, shapes, x, y);
    }
}

/// Runs a kernel of three accesses on their lists, wherever those stand: all write only the first.
pub fn apply_to_three(
    k: Kernel,
    scalar: i64,
    shapes: (Shape, Shape, Shape),
    x: &mut [i64],
    y: &[i64],
    z: &[i64],
)
    requires fit { ShapesFit k (shapes.0 ∷ shapes.1 ∷ shapes.2 ∷ []) }
    requires first { length x.old ≡ size_of shapes.0 }
    requires second { length y.now ≡ size_of shapes.1 }
    requires third { length z.now ≡ size_of shapes.2 }
    ensures results { x.new ∷ y.now ∷ z.now ∷ []
        ≡ results k scalar (shapes.0 ∷ shapes.1 ∷ shapes.2 ∷ []) (x.old ∷ y.now ∷ z.now ∷ []) }

    // A list that the kernel only writes counts for nothing.
    ensures overwritten { (others : List (List ℤ)) → AgreeWhereRead k (x.old ∷ y.now ∷ z.now ∷ []) others
        → x.new ∷ y.now ∷ z.now ∷ [] ≡ results k scalar (shapes.0 ∷ shapes.1 ∷ shapes.2 ∷ []) others }
{
    plain_on_three(k, scalar, shapes, x, y, z);
}
