//! The solution of a packed lower triangle with ones on its diagonal, which are not stored.
ghost use Rattle.std.specs.Prelude.{◌≡◌, ℕ, ◌+◌, ◌*◌, ℤ, ◌-ℤ◌, ◌*ℤ◌, List, length};
ghost use Rattle.dd_kernels.specs.Lists.{wrapped, element, zip_with};
ghost use Rattle.dd_kernels.specs.Packed.{solution, solutions};
ghost use Rattle.dd_kernels.specs.Shapes.{size_of};

use dd_kernels::{Shape, combine};

/// Solves the packed strict triangle `p` for the column `x`, into `x`.
pub fn trsv_unit(x: &mut [i64], p: &[i64])
    requires { 2 * length p.now + length x.old ≡ length x.old * length x.old }
    ensures { x.new ≡ solution x.old p.now }
{
    let order = x.len();
    let mut columns = p;
    for j in 0..order {
        let (column, others) = columns.split_at(order - j - 1);
        let solved = x[j];
        subtract(&mut x[j + 1..], column, solved);
        columns = others;
    }
}

/// Solves the packed strict triangle `p` for each column of `x`, of this shape, into `x`.
pub fn trsm_unit(x: &mut [i64], p: &[i64], shape: Shape)
    requires target { length x.old ≡ size_of shape }
    requires triangle { 2 * length p.now + shape.rows ≡ shape.rows * shape.rows }
    ensures { x.new ≡ solutions shape x.old p.now }
{
    let rows = shape.rows as usize;
    for j in 0..shape.cols as usize {
        trsv_unit(&mut x[j * rows..j * rows + rows], p);
    }
}

/// Subtracts `k` times `y` from `x`.
fn subtract(x: &mut [i64], y: &[i64], k: i64)
    requires { length x.old ≡ length y.now }
    ensures { x.new ≡ zip_with (λ a b. wrapped (a -ℤ k *ℤ b)) x.old y.now }
{
    combine(x, y, |a, b| a.wrapping_sub(k.wrapping_mul(b)));
}
