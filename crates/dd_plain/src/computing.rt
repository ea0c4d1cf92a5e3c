//! Kernels run on what a task holds of its accesses.
ghost use Rattle.std.specs.Prelude.{◌≡◌, ◌^◌, ◌<◌, ◌+◌, ◌≤◌, [], ◌∷◌, length};
ghost use Rattle.dd_kernels.specs.Shapes.{ShapesFit, size_of};
ghost use Rattle.dd_views.specs.IndexList.{index_list};
ghost use Rattle.dd_views.specs.Views.{IsView};
ghost use Rattle.dd_blocks.specs.Tasks.{kernel_shape, shapes_in};
ghost use Rattle.dd_plain.specs.Lending.{AreHeld, IsHeld, all_places, is_lent, places_in};
ghost use Rattle.dd_plain.specs.Lists.{lists_of};
ghost use Rattle.dd_plain.specs.Runs.{AreApart, Wrote, WroteBoth, positions};

use crate::lending::is_lent;
use crate::runs::{Segment, run_of};
use dd_apply::{apply_to_one, apply_to_three, apply_to_two};
use dd_blocks::{AccessRow, TaskRow};
use dd_kernels::Shape;
use dd_views::View;

/// Runs the kernel of a task where the elements of its accesses stand.
pub(crate) fn compute(task: &TaskRow, held: &mut [Vec<i64>])
    requires fit { ShapesFit task.now.kernel (shapes_in task.now.accesses) }
    requires held { AreHeld (is_lent task.now.accesses) task.now.accesses (lists_of held.old) }
    ensures { Wrote task.now.kernel task.now.scalar (shapes_in task.now.accesses)
        (all_places (is_lent task.now.accesses) task.now.accesses (lists_of held.old)) (lists_of held.old) (lists_of held.new) }
{
    match task.accesses.as_slice() {
        [x] => lend_one(task, x, held),
        [x, y] => lend_two(task, x, y, held),
        [x, y, z] => lend_three(task, x, y, z, held),
        _ => unreachable!(),
    }
}

/// Lends what is held to a kernel of one access.
fn lend_one(task: &TaskRow, x: &AccessRow, held: &mut [Vec<i64>])
    requires accesses { task.now.accesses ≡ x.now ∷ [] }
    requires fit { ShapesFit task.now.kernel (shapes_in task.now.accesses) }
    requires held { AreHeld (is_lent task.now.accesses) task.now.accesses (lists_of held.old) }
    ensures { Wrote task.now.kernel task.now.scalar (shapes_in task.now.accesses)
        (all_places (is_lent task.now.accesses) task.now.accesses (lists_of held.old)) (lists_of held.old) (lists_of held.new) }
{
    compute_one(task, x, &mut held[0]);
}

/// Lends what is held to a kernel of two accesses.
fn lend_two(task: &TaskRow, x: &AccessRow, y: &AccessRow, held: &mut [Vec<i64>])
    requires accesses { task.now.accesses ≡ x.now ∷ y.now ∷ [] }
    requires fit { ShapesFit task.now.kernel (shapes_in task.now.accesses) }
    requires held { AreHeld (is_lent task.now.accesses) task.now.accesses (lists_of held.old) }
    ensures { Wrote task.now.kernel task.now.scalar (shapes_in task.now.accesses)
        (all_places (is_lent task.now.accesses) task.now.accesses (lists_of held.old)) (lists_of held.old) (lists_of held.new) }
{
    let (first, rest) = held.split_at_mut(1);
    compute_two(task, x, y, &mut first[0], &mut rest[0]);
}

/// Lends what is held to a kernel of three accesses.
fn lend_three(task: &TaskRow, x: &AccessRow, y: &AccessRow, z: &AccessRow, held: &mut [Vec<i64>])
    requires accesses { task.now.accesses ≡ x.now ∷ y.now ∷ z.now ∷ [] }
    requires fit { ShapesFit task.now.kernel (shapes_in task.now.accesses) }
    requires held { AreHeld (is_lent task.now.accesses) task.now.accesses (lists_of held.old) }
    ensures { Wrote task.now.kernel task.now.scalar (shapes_in task.now.accesses)
        (all_places (is_lent task.now.accesses) task.now.accesses (lists_of held.old)) (lists_of held.old) (lists_of held.new) }
{
    let (first, rest) = held.split_at_mut(1);
    compute_three(task, x, y, z, &mut first[0], &rest[0], &rest[1]);
}

/// Runs a kernel of one access on what is held of it.
fn compute_one(task: &TaskRow, x: &AccessRow, a: &mut [i64])
    requires fit { ShapesFit task.now.kernel (kernel_shape x.now.view ∷ []) }
    requires x_held { IsHeld (is_lent task.now.accesses) x.now (length a.old) }
    ensures { Wrote task.now.kernel task.now.scalar (kernel_shape x.now.view ∷ [])
        (places_in (is_lent task.now.accesses) x.now (length a.old) ∷ []) (a.old ∷ []) (a.new ∷ []) }
{
    let at = place_of(task, x, a.len());
    run_one(task, kernel_shape(&x.view), at, a);
}

/// Runs a kernel of two accesses on what is held of them.
fn compute_two(task: &TaskRow, x: &AccessRow, y: &AccessRow, a: &mut [i64], b: &mut [i64])
    requires fit { ShapesFit task.now.kernel (kernel_shape x.now.view ∷ kernel_shape y.now.view ∷ []) }
    requires x_held { IsHeld (is_lent task.now.accesses) x.now (length a.old) }
    requires y_held { IsHeld (is_lent task.now.accesses) y.now (length b.old) }
    ensures { Wrote task.now.kernel task.now.scalar (kernel_shape x.now.view ∷ kernel_shape y.now.view ∷ [])
        (places_in (is_lent task.now.accesses) x.now (length a.old) ∷ places_in (is_lent task.now.accesses) y.now (length b.old) ∷ [])
        (a.old ∷ b.old ∷ []) (a.new ∷ b.new ∷ []) }
{
    let at = (place_of(task, x, a.len()), place_of(task, y, b.len()));
    let shapes = (kernel_shape(&x.view), kernel_shape(&y.view));
    run_two(task, shapes, at, a, b);
}

/// Runs a kernel of three accesses on what is held of them. It writes only the first.
fn compute_three(
    task: &TaskRow,
    x: &AccessRow,
    y: &AccessRow,
    z: &AccessRow,
    a: &mut [i64],
    b: &[i64],
    c: &[i64],
)
    requires fit { ShapesFit task.now.kernel (kernel_shape x.now.view ∷ kernel_shape y.now.view ∷ kernel_shape z.now.view ∷ []) }
    requires x_held { IsHeld (is_lent task.now.accesses) x.now (length a.old) }
    requires y_held { IsHeld (is_lent task.now.accesses) y.now (length b.now) }
    requires z_held { IsHeld (is_lent task.now.accesses) z.now (length c.now) }
    ensures { Wrote task.now.kernel task.now.scalar (kernel_shape x.now.view ∷ kernel_shape y.now.view ∷ kernel_shape z.now.view ∷ [])
        (places_in (is_lent task.now.accesses) x.now (length a.old) ∷ places_in (is_lent task.now.accesses) y.now (length b.now)
        ∷ places_in (is_lent task.now.accesses) z.now (length c.now) ∷ []) (a.old ∷ b.now ∷ c.now ∷ []) (a.new ∷ b.now ∷ c.now ∷ []) }
{
    let at = (
        place_of(task, x, a.len()),
        place_of(task, y, b.len()),
        place_of(task, z, c.len()),
    );
    let shapes = (
        kernel_shape(&x.view),
        kernel_shape(&y.view),
        kernel_shape(&z.view),
    );
    run_three(task, shapes, at, a, b, c);
}

/// Where the elements of an access stand among what is held of it: as the view says where that is its array, or
/// else everywhere.
fn place_of(task: &TaskRow, access: &AccessRow, count: usize) -> Segment
    requires { IsHeld (is_lent task.now.accesses) access.now count }
    ensures positions { positions result ≡ places_in (is_lent task.now.accesses) access.now count }
    ensures within { result.first + result.count ≤ count }
    ensures filled { result.count ≡ size_of (kernel_shape access.now.view) }
{
    if is_lent(task.accesses.as_slice(), access) {
        run_of(&access.view)
    } else {
        Segment { first: 0, count }
    }
}

/// The shape of an access, for a kernel.
pub(crate) fn kernel_shape(view: &View) -> Shape
    requires view { IsView view.now }
    requires few { length (index_list view.now) < 2 ^ 32 }
    ensures { result ≡ kernel_shape view.now }
{
    let shape = view.shape();
    Shape {
        rows: shape.rows,
        cols: shape.cols,
    }
}

/// Runs a kernel on a run of a list.
fn run_one(task: &TaskRow, shape: Shape, at: Segment, x: &mut [i64])
    requires fit { ShapesFit task.now.kernel (shape ∷ []) }
    requires within { at.first + at.count ≤ length x.old }
    requires filled { at.count ≡ size_of shape }
    ensures { Wrote task.now.kernel task.now.scalar (shape ∷ []) (positions at ∷ []) (x.old ∷ []) (x.new ∷ []) }
{
    apply_to_one(
        task.kernel,
        task.scalar,
        shape,
        &mut x[at.first..at.first + at.count],
    );
}

/// Runs a kernel on runs of two lists.
fn run_two(
    task: &TaskRow,
    shapes: (Shape, Shape),
    at: (Segment, Segment),
    x: &mut [i64],
    y: &mut [i64],
)
    requires fit { ShapesFit task.now.kernel (shapes.0 ∷ shapes.1 ∷ []) }
    requires x_within { at.0.first + at.0.count ≤ length x.old }
    requires y_within { at.1.first + at.1.count ≤ length y.old }
    requires x_filled { at.0.count ≡ size_of shapes.0 }
    requires y_filled { at.1.count ≡ size_of shapes.1 }
    ensures { Wrote task.now.kernel task.now.scalar (shapes.0 ∷ shapes.1 ∷ []) (positions at.0 ∷ positions at.1 ∷ []) (x.old ∷ y.old ∷ []) (x.new ∷ y.new ∷ []) }
{
    let x = &mut x[at.0.first..at.0.first + at.0.count];
    let y = &mut y[at.1.first..at.1.first + at.1.count];
    apply_to_two(task.kernel, task.scalar, shapes, x, y);
}

/// Runs a kernel on runs of three lists. It writes only the first.
fn run_three(
    task: &TaskRow,
    shapes: (Shape, Shape, Shape),
    at: (Segment, Segment, Segment),
    x: &mut [i64],
    y: &[i64],
    z: &[i64],
)
    requires fit { ShapesFit task.now.kernel (shapes.0 ∷ shapes.1 ∷ shapes.2 ∷ []) }
    requires x_within { at.0.first + at.0.count ≤ length x.old }
    requires y_within { at.1.first + at.1.count ≤ length y.now }
    requires z_within { at.2.first + at.2.count ≤ length z.now }
    requires x_filled { at.0.count ≡ size_of shapes.0 }
    requires y_filled { at.1.count ≡ size_of shapes.1 }
    requires z_filled { at.2.count ≡ size_of shapes.2 }
    ensures { Wrote task.now.kernel task.now.scalar (shapes.0 ∷ shapes.1 ∷ shapes.2 ∷ []) (positions at.0 ∷ positions at.1 ∷ positions at.2 ∷ [])
        (x.old ∷ y.now ∷ z.now ∷ []) (x.new ∷ y.now ∷ z.now ∷ []) }
{
    let x = &mut x[at.0.first..at.0.first + at.0.count];
    let y = &y[at.1.first..at.1.first + at.1.count];
    let z = &z[at.2.first..at.2.first + at.2.count];
    apply_to_three(task.kernel, task.scalar, shapes, x, y, z);
}

/// Runs a kernel on two runs of one list.
pub(crate) fn run_beside(
    task: &TaskRow,
    shapes: (Shape, Shape),
    at: (Segment, Segment),
    values: &mut [i64],
)
    requires fit { ShapesFit task.now.kernel (shapes.0 ∷ shapes.1 ∷ []) }
    requires apart { AreApart at.0 at.1 }
    requires x_within { at.0.first + at.0.count ≤ length values.old }
    requires y_within { at.1.first + at.1.count ≤ length values.old }
    requires x_filled { at.0.count ≡ size_of shapes.0 }
    requires y_filled { at.1.count ≡ size_of shapes.1 }
    ensures { WroteBoth task.now.kernel task.now.scalar (shapes.0 ∷ shapes.1 ∷ []) (positions at.0) (positions at.1) values.old values.new }
{
    let (x, y) = at;
    if x.first + x.count <= y.first {
        let (front, back) = values.split_at_mut(y.first);
        let y = Segment {
            first: 0,
            count: y.count,
        };
        run_two(task, shapes, (x, y), front, back);
    } else {
        let (front, back) = values.split_at_mut(x.first);
        let x = Segment {
            first: 0,
            count: x.count,
        };
        run_two(task, shapes, (x, y), back, front);
    }
}
