//! The lower triangle of a matrix times itself transposed.
ghost use Rattle.std.specs.Prelude.{◌≡◌, ℕ, ◌+◌, ◌*◌, ◌<◌, ℤ, ◌+ℤ◌, ◌*ℤ◌, List, length};
ghost use Rattle.dd_kernels.specs.Lists.{wrapped, element, tabulate, sum_below};
ghost use Rattle.dd_kernels.specs.Matrices.{entry};
ghost use Rattle.dd_kernels.specs.Packed.{plus_square};
ghost use Rattle.dd_kernels.specs.Shapes.{size_of};

use dd_kernels::{Shape, addk, axpy};

/// Adds the lower triangle of `a`, of this shape, times itself transposed to the packed triangle `l`.
#[tactic(auto, using(crate::proofs::ColumnsLemmas::lower_end))]
pub fn syrk_packed(l: &mut [i64], a: &[i64], shape: Shape)
    requires triangle { 2 * length l.old ≡ shape.rows * (shape.rows + 1) }
    requires matrix { length a.now ≡ size_of shape }
    ensures { l.new ≡ plus_square shape l.old a.now }
{
    let rows = shape.rows as usize;
    let mut start = 0;
    for j in 0..rows {
        let end = start + (rows - j);
        add_products(&mut l[start..end], a, shape, j);
        start = end;
    }
}

/// Adds to a column of a triangle, from its diagonal on, the products of the rows of `a` from row `j` on with
/// row `j`.
fn add_products(column: &mut [i64], a: &[i64], shape: Shape, j: usize)
    requires below { j < shape.rows }
    requires column { j + length column.old ≡ shape.rows }
    requires matrix { length a.now ≡ size_of shape }
    ensures { column.new ≡ tabulate (length column.old)
        (λ t. wrapped (element column.old t +ℤ sum_below shape.cols (λ q. entry shape a.now (j + t) q *ℤ entry shape a.now j q))) }
{
    let rows = shape.rows as usize;
    if shape.cols == 0 {
        // The sum over no column is 0.
        return addk(column, 0);
    }
    for q in 0..shape.cols as usize {
        let part = &a[q * rows + j..q * rows + rows];
        axpy(column, part, part[0]);
    }
}
