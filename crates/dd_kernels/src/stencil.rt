//! The stencil of five points, column by column.
ghost use Rattle.std.specs.Prelude.{◌≡◌, ℕ, ◌+◌, ◌<◌, ◌≤◌, ℤ, List, length};
ghost use Rattle.dd_kernels.specs.declared.shape.Shape.{Shape};
ghost use Rattle.dd_kernels.specs.Lists.{element, tabulate};
ghost use Rattle.dd_kernels.specs.Matrices.{bordered, cross, element_before, stencil, weighed};
ghost use Rattle.dd_kernels.specs.Shapes.{size_of};

use crate::shape::Shape;

/// Writes into each place of `x` the sum of the four neighbours in `y`, less four times the place.
/// Outside `y` there are zeros.
pub fn stencil5(x: &mut [i64], y: &[i64], shape: Shape)
    requires first { length x.old ≡ size_of shape }
    requires second { length y.now ≡ size_of shape }
    ensures { x.new ≡ stencil shape y.now }
{
    let rows = shape.rows as usize;
    for j in 0..shape.cols as usize {
        let left = column_of(y, shape, j);
        let here = column_of(y, shape, j + 1);
        let right = column_of(y, shape, j + 2);
        fill_column(&mut x[j * rows..j * rows + rows], left, here, right);
    }
}

/// Column `j` of `y`, counted from 1; empty where there is none.
fn column_of(y: &[i64], shape: Shape, j: usize) -> &[i64]
    requires { length y.now ≡ size_of shape }
    ensures elements { (i : ℕ) → element result.now i ≡ bordered shape y.now (i + 1) j }
    ensures whole { 0 < j → j ≤ shape.cols → length result.now ≡ shape.rows }
{
    if j == 0 || j > shape.cols as usize {
        return &[];
    }
    let rows = shape.rows as usize;
    let from = (j - 1) * rows;
    &y[from..from + rows]
}

/// Fills a column from the one at its place, `here`, and those beside it, which may be missing.
fn fill_column(out: &mut [i64], left: &[i64], here: &[i64], right: &[i64])
    requires { length here.now ≡ length out.old }
    ensures { out.new ≡ tabulate (length out.old) (cross left.now here.now right.now) }
{
    let rows = out.len();
    if rows >= 2 && left.len() == rows && right.len() == rows {
        fill_inner(out, left, here, right);
    } else {
        fill_edge(out, left, here, right);
    }
}

/// Fills a column that lies between two others: its ends by themselves, and what is between in one go.
fn fill_inner(out: &mut [i64], left: &[i64], here: &[i64], right: &[i64])
    requires some { 2 ≤ length out.old }
    requires middle { length here.now ≡ length out.old }
    requires before { length left.now ≡ length out.old }
    requires after { length right.now ≡ length out.old }
    ensures { out.new ≡ tabulate (length out.old) (cross left.now here.now right.now) }
{
    let last = out.len() - 1;
    out[0] = at_place(left, here, right, 0);
    out[last] = at_place(left, here, right, last);
    fill_between(
        &mut out[1..last],
        &here[..last - 1],
        &here[2..],
        &left[1..last],
        &right[1..last],
        &here[1..last],
    );
}

/// Fills a part of a column from the five parts of its length that lie round it.
fn fill_between(
    out: &mut [i64],
    above: &[i64],
    below: &[i64],
    left: &[i64],
    right: &[i64],
    here: &[i64],
)
    requires top { length above.now ≡ length out.old }
    requires bottom { length below.now ≡ length out.old }
    requires before { length left.now ≡ length out.old }
    requires after { length right.now ≡ length out.old }
    requires middle { length here.now ≡ length out.old }
    ensures { out.new ≡ tabulate (length out.old)
        (λ i. weighed (element above.now i) (element below.now i) (element left.now i) (element right.now i) (element here.now i)) }
{
    for (i, a) in out.iter_mut().enumerate() {
        *a = weigh(above[i], below[i], left[i], right[i], here[i]);
    }
}

/// Fills a column at the edge of the matrix.
#[tactic(auto, using(crate::proofs::ListsLemmas::tabulate_more))]
fn fill_edge(out: &mut [i64], left: &[i64], here: &[i64], right: &[i64])
    requires { length here.now ≡ length out.old }
    ensures { out.new ≡ tabulate (length out.old) (cross left.now here.now right.now) }
{
    for (i, a) in out.iter_mut().enumerate() {
        *a = at_place(left, here, right, i);
    }
}

/// The value for one place of a column.
fn at_place(left: &[i64], here: &[i64], right: &[i64], i: usize) -> i64
    requires { i < length here.now }
    ensures { result ≡ cross left.now here.now right.now i }
{
    weigh(
        element_before(here, i),
        element(here, i + 1),
        element(left, i),
        element(right, i),
        here[i],
    )
}

/// The element before a place, 0 before the first.
fn element_before(xs: &[i64], i: usize) -> i64
    ensures { result ≡ element_before xs.now i }
{
    if i == 0 { 0 } else { element(xs, i - 1) }
}

/// The element at a place, 0 past the end.
fn element(xs: &[i64], i: usize) -> i64
    ensures { result ≡ element xs.now i }
{
    if i < xs.len() { xs[i] } else { 0 }
}

/// The sum of the neighbours, less four times the place itself.
fn weigh(above: i64, below: i64, left: i64, right: i64, here: i64) -> i64
    ensures { result ≡ weighed above below left right here }
{
    let neighbours = above
        .wrapping_add(below)
        .wrapping_add(left)
        .wrapping_add(right);
    neighbours.wrapping_sub(4i64.wrapping_mul(here))
}
