//! Kernels on matrices, column by column.
ghost use Rattle.std.specs.Prelude.{◌≡◌, ℕ, ◌+◌, ◌*◌, ◌<◌, ℤ, ◌+ℤ◌, ◌*ℤ◌, List, length};
ghost use Rattle.dd_kernels.specs.declared.shape.Shape.{Shape};
ghost use Rattle.dd_kernels.specs.Lists.{wrapped, element, tabulate, sum_below};
ghost use Rattle.dd_kernels.specs.Matrices.{entry, matrix, transposed};
ghost use Rattle.dd_kernels.specs.Shapes.{size_of};

use crate::element_wise::{addk, axpy};
use crate::shape::Shape;

/// Writes `y`, of this shape, into `x`, rows as columns.
pub fn copyt(x: &mut [i64], y: &[i64], shape: Shape)
    requires first { length x.old ≡ size_of shape }
    requires second { length y.now ≡ size_of shape }
    ensures { x.new ≡ transposed shape y.now }
{
    let rows = shape.cols as usize;
    let cols = shape.rows as usize;
    for j in 0..cols {
        read_row(&mut x[j * rows..j * rows + rows], y, j, cols);
    }
}

/// Writes into `column` the elements of `y` from place `first` on, each `step` places after the last.
fn read_row(column: &mut [i64], y: &[i64], first: usize, step: usize)
    requires within { length column.old * step ≡ length y.now }
    requires start { first < step }
    ensures { column.new ≡ tabulate (length column.old) (λ i. element y.now (i * step + first)) }
{
    let mut place = first;
    for a in column.iter_mut() {
        *a = y[place];
        place += step;
    }
}

/// Adds the product of the matrix `a` and the column `x` to the column `y`.
pub fn gemv(y: &mut [i64], a: &[i64], x: &[i64])
    requires { length a.now ≡ length y.old * length x.now }
    ensures { y.new ≡ tabulate (length y.old)
        (λ i. wrapped (element y.old i +ℤ sum_below (length x.now) (λ q. element a.now (q * length y.old + i) *ℤ element x.now q))) }
{
    let rows = y.len();
    if x.is_empty() {
        // The sum over no column is 0.
        return addk(y, 0);
    }
    for (q, k) in x.iter().enumerate() {
        axpy(y, &a[q * rows..q * rows + rows], *k);
    }
}

/// Adds the product of the matrices `a`, of this shape, and `b` to `c`, both of `cols` columns.
pub fn gemm(c: &mut [i64], a: &[i64], b: &[i64], shape: Shape, cols: usize)
    requires target { length c.old ≡ shape.rows * cols }
    requires left { length a.now ≡ size_of shape }
    requires right { length b.now ≡ shape.cols * cols }
    ensures { c.new ≡ matrix shape.rows cols
        (λ i j. wrapped (element c.old (j * shape.rows + i)
        +ℤ sum_below shape.cols (λ q. entry shape a.now i q *ℤ element b.now (j * shape.cols + q)))) }
{
    let rows = shape.rows as usize;
    let inner = shape.cols as usize;
    for j in 0..cols {
        gemv(
            &mut c[j * rows..j * rows + rows],
            a,
            &b[j * inner..j * inner + inner],
        );
    }
}
