ghost use Rattle.std.specs.Prelude.{◌≡◌, ℕ, List, [], ◌∷◌, map};
ghost use Rattle.dd_kernels.specs.Shapes.{ShapesFit, HaveShapes};
ghost use Rattle.dd_kernels.specs.Table.{results, IsPlain};

use crate::args::Args;
use crate::kernel::Kernel;
use crate::one_list::plain_on_one;
use crate::shape::Shape;
use crate::three_lists::plain_on_three;
use crate::two_lists::plain_on_two;

/// Runs a kernel on owned buffers. It takes no memory.
pub fn plain(k: Kernel, scalar: i64, args: &mut Args)
    requires plain { IsPlain k }
    requires fit { ShapesFit k args.old.shapes.items }
    requires filled { HaveShapes args.old.shapes.items (map (λ b. b.items) args.old.bufs.items) }
    ensures shapes { args.new.shapes.items ≡ args.old.shapes.items }
    ensures results { map (λ b. b.items) args.new.bufs.items
        ≡ results k scalar args.old.shapes.items (map (λ b. b.items) args.old.bufs.items) }
    ensures filled { HaveShapes args.new.shapes.items (map (λ b. b.items) args.new.bufs.items) }
{
    match args.shapes.as_slice() {
        [shape] => lend_one(k, scalar, *shape, &mut args.bufs),
        [first, second] => lend_two(k, scalar, (*first, *second), &mut args.bufs),
        [first, second, third] => lend_three(k, scalar, (*first, *second, *third), &mut args.bufs),
        _ => unreachable!(),
    }
}

/// Lends the one buffer to a kernel of one access.
fn lend_one(k: Kernel, scalar: i64, shape: Shape, bufs: &mut [Vec<i64>])
    requires plain { IsPlain k }
    requires fit { ShapesFit k (shape ∷ []) }
    requires filled { HaveShapes (shape ∷ []) (map (λ b. b.items) bufs.old) }
    ensures results { map (λ b. b.items) bufs.new ≡ results k scalar (shape ∷ []) (map (λ b. b.items) bufs.old) }
    ensures filled { HaveShapes (shape ∷ []) (map (λ b. b.items) bufs.new) }
{
    plain_on_one(k, scalar, shape, &mut bufs[0]);
}

/// Lends both buffers to a kernel of two accesses.
fn lend_two(k: Kernel, scalar: i64, shapes: (Shape, Shape), bufs: &mut [Vec<i64>])
    requires plain { IsPlain k }
    requires fit { ShapesFit k (shapes.0 ∷ shapes.1 ∷ []) }
    requires filled { HaveShapes (shapes.0 ∷ shapes.1 ∷ []) (map (λ b. b.items) bufs.old) }
    ensures results { map (λ b. b.items) bufs.new
        ≡ results k scalar (shapes.0 ∷ shapes.1 ∷ []) (map (λ b. b.items) bufs.old) }
    ensures filled { HaveShapes (shapes.0 ∷ shapes.1 ∷ []) (map (λ b. b.items) bufs.new) }
{
    let (first, rest) = bufs.split_at_mut(1);
    plain_on_two(k, scalar, shapes, &mut first[0], &mut rest[0]);
}

/// Lends the three buffers to a kernel of three accesses.
fn lend_three(k: Kernel, scalar: i64, shapes: (Shape, Shape, Shape), bufs: &mut [Vec<i64>])
    requires plain { IsPlain k }
    requires fit { ShapesFit k (shapes.0 ∷ shapes.1 ∷ shapes.2 ∷ []) }
    requires filled { HaveShapes (shapes.0 ∷ shapes.1 ∷ shapes.2 ∷ []) (map (λ b. b.items) bufs.old) }
    ensures results { map (λ b. b.items) bufs.new
        ≡ results k scalar (shapes.0 ∷ shapes.1 ∷ shapes.2 ∷ []) (map (λ b. b.items) bufs.old) }
    ensures filled { HaveShapes (shapes.0 ∷ shapes.1 ∷ shapes.2 ∷ []) (map (λ b. b.items) bufs.new) }
{
    let (first, rest) = bufs.split_at_mut(1);
    let (second, third) = rest.split_at_mut(1);
    plain_on_three(k, scalar, shapes, &mut first[0], &second[0], &third[0]);
}
