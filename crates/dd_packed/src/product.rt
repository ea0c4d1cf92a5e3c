//! A packed lower triangle times a column.
ghost use Rattle.std.specs.Prelude.{◌≡◌, ℕ, ◌+◌, ◌*◌, ◌<◌, ℤ, ◌+ℤ◌, ◌*ℤ◌, List, ◌∷◌, length, drop};
ghost use Rattle.dd_kernels.specs.Lists.{wrapped, wrapping_product, element, zip_with};
ghost use Rattle.dd_kernels.specs.Packed.{triangle_product};

use dd_kernels::axpy;

/// Multiplies the packed lower triangle `l`, with its diagonal, by the column `x`, into `x`.
pub fn trmv(x: &mut [i64], l: &[i64])
    requires { 2 * length l.now ≡ length x.old * (length x.old + 1) }
    ensures { x.new ≡ triangle_product x.old l.now }
{
    let order = x.len();
    let mut columns = l;
    // The last column goes first, since each needs the element of `x` at its diagonal as it was.
    for below in 0..order {
        let j = order - below - 1;
        let (others, column) = columns.split_at(columns.len() - (below + 1));
        multiply_column(&mut x[j..], column);
        columns = others;
    }
}

/// Adds a column of the triangle times the first element of `x` to the others, and multiplies the first by the
/// element on the diagonal. Both lists begin at the diagonal.
fn multiply_column(x: &mut [i64], column: &[i64])
    requires some { 0 < length x.old }
    requires same { length column.now ≡ length x.old }
    ensures { x.new ≡ wrapping_product (element x.old 0) (element column.now 0)
        ∷ zip_with (λ a b. wrapped (a +ℤ element x.old 0 *ℤ b)) (drop 1 x.old) (drop 1 column.now) }
{
    let k = x[0];
    axpy(&mut x[1..], &column[1..], k);
    x[0] = k.wrapping_mul(column[0]);
}
