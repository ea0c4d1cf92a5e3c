//! A packed strict triangle turned about its diagonal.
ghost use Rattle.std.specs.Prelude.{◌≡◌, ℕ, ◌+◌, ◌*◌, ◌<◌, ℤ, List, length};
ghost use Rattle.dd_kernels.specs.Lists.{tabulate};
ghost use Rattle.dd_kernels.specs.Packed.{mirrored, packed, strictly_lower_pairs};

/// Writes the strictly lower triangle `p` into `q` as a strictly upper one, rows as columns.
pub fn mirror(p: &[i64], q: &mut [i64])
    requires triangle { (n : ℕ) × (0 < n) × (2 * length p.now + n ≡ n * n) }
    requires same { length q.old ≡ length p.now }
    ensures { q.new ≡ mirrored p.now }
{
    let order = order_of(p);
    let mut start = 0;
    for j in 1..order {
        read_row(&mut q[start..start + j], p, order);
        start += j;
    }
}

/// The order of a strict triangle: the n with so many as n (n - 1) / 2 elements.
fn order_of(p: &[i64]) -> usize
    requires { (n : ℕ) × (0 < n) × (2 * length p.now + n ≡ n * n) }
    ensures some { 0 < result }
    ensures square { 2 * length p.now + result ≡ result * result }
{
    (2 * p.len()).isqrt() + 1
}

/// Writes a row of the triangle `p` of this order into `column`: the row that has so many elements.
fn read_row(column: &mut [i64], p: &[i64], order: usize)
    requires some { 0 < length column.old }
    requires below { length column.old < order }
    requires triangle { 2 * length p.now + order ≡ order * order }
    ensures { column.new ≡ tabulate (length column.old) (packed (strictly_lower_pairs order) p.now (length column.old)) }
{
    // From one column of the triangle to the next the step to the same row gets shorter by one.
    let mut place = column.len() - 1;
    let mut step = order - 1;
    for a in column.iter_mut() {
        *a = p[place];
        step -= 1;
        place += step;
    }
}
