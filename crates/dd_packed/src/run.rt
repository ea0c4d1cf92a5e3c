ghost use Rattle.std.specs.Prelude.{◌≡◌, ℕ, ℤ, List, [], ◌∷◌, map, length};
ghost use Rattle.dd_kernels.specs.Shapes.{ShapesFit, HaveShapes, size_of};
ghost use Rattle.dd_kernels.specs.Table.{results, IsPlain};

use crate::product::trmv;
use crate::reflection::mirror;
use crate::solution::{trsm_unit, trsv_unit};
use crate::square::syrk_packed;
use dd_kernels::{Args, Kernel, Shape};

/// Runs a kernel on packed triangles on owned buffers: each that isn't plain. It takes no memory. None of these
/// kernels has a scalar, so the result is the table's at any.
pub fn packed(k: Kernel, args: &mut Args)
    requires packed { ¬ (IsPlain k) }
    requires fit { ShapesFit k args.old.shapes.items }
    requires filled { HaveShapes args.old.shapes.items (map (λ b. b.items) args.old.bufs.items) }
    ensures shapes { args.new.shapes.items ≡ args.old.shapes.items }
    ensures results { (scalar : ℤ) → map (λ b. b.items) args.new.bufs.items
        ≡ results k scalar args.old.shapes.items (map (λ b. b.items) args.old.bufs.items) }
    ensures filled { HaveShapes args.new.shapes.items (map (λ b. b.items) args.new.bufs.items) }
{
    match args.shapes.as_slice() {
        [first, second] => lend_two(k, (*first, *second), &mut args.bufs),
        _ => unreachable!(),
    }
}

/// Lends both buffers to a kernel.
fn lend_two(k: Kernel, shapes: (Shape, Shape), bufs: &mut [Vec<i64>])
    requires packed { ¬ (IsPlain k) }
    requires fit { ShapesFit k (shapes.0 ∷ shapes.1 ∷ []) }
    requires filled { HaveShapes (shapes.0 ∷ shapes.1 ∷ []) (map (λ b. b.items) bufs.old) }
    ensures results { (scalar : ℤ) → map (λ b. b.items) bufs.new
        ≡ results k scalar (shapes.0 ∷ shapes.1 ∷ []) (map (λ b. b.items) bufs.old) }
    ensures filled { HaveShapes (shapes.0 ∷ shapes.1 ∷ []) (map (λ b. b.items) bufs.new) }
{
    let (first, rest) = bufs.split_at_mut(1);
    packed_on_two(k, shapes, &mut first[0], &mut rest[0]);
}

/// Runs a kernel on packed triangles on its two lists, wherever those stand. It takes no memory.
pub fn packed_on_two(k: Kernel, shapes: (Shape, Shape), x: &mut [i64], y: &mut [i64])
    requires packed { ¬ (IsPlain k) }
    requires fit { ShapesFit k (shapes.0 ∷ shapes.1 ∷ []) }
    requires first { length x.old ≡ size_of shapes.0 }
    requires second { length y.old ≡ size_of shapes.1 }
    ensures { (scalar : ℤ) → x.new ∷ y.new ∷ [] ≡ results k scalar (shapes.0 ∷ shapes.1 ∷ []) (x.old ∷ y.old ∷ []) }
{
    match k {
        Kernel::Trmv => trmv(x, y),
        Kernel::TrsvUnit => trsv_unit(x, y),
        Kernel::TrsmUnit => trsm_unit(x, y, shapes.0),
        Kernel::Mirror => mirror(x, y),
        Kernel::SyrkPacked => syrk_packed(x, y, shapes.1),
        _ => unreachable!(),
    }
}
