//! Kernels that make one number of lists.
ghost use Rattle.std.specs.Prelude.{◌≡◌, ℕ, ℤ, ◌+ℤ◌, ◌*ℤ◌, List, [], ◌∷◌, length};
ghost use Rattle.dd_kernels.specs.Lists.{wrapped, element, sum_below};

/// Writes the sum of `y` into the one element of `x`.
pub fn sum(x: &mut [i64], y: &[i64])
    requires { length x.old ≡ 1 }
    ensures { x.new ≡ wrapped (sum_below (length y.now) (element y.now)) ∷ [] }
{
    x[0] = sum_of(y);
}

/// Writes the sum of the products of `y` and `z`, place by place, into the one element of `x`.
pub fn dot(x: &mut [i64], y: &[i64], z: &[i64])
    requires single { length x.old ≡ 1 }
    requires same { length y.now ≡ length z.now }
    ensures { x.new ≡ wrapped (sum_below (length y.now) (λ i. element y.now i *ℤ element z.now i)) ∷ [] }
{
    x[0] = dot_of(y, z);
}

/// The sum of `y`, 0 where it is empty. It goes by blocks of 32, whose loop is unrolled and becomes vector
/// operations.
fn sum_of(y: &[i64]) -> i64
    ensures { result ≡ wrapped (sum_below (length y.now) (element y.now)) }
{
    let mut sum = 0i64;
    let blocks = y.len() / 32;
    for k in 0..blocks {
        sum = add_all(sum, &y[32 * k..32 * k + 32]);
    }
    add_all(sum, &y[32 * blocks..])
}

/// A number with the sum of `y` added.
fn add_all(start: i64, y: &[i64]) -> i64
    ensures { result ≡ wrapped (start +ℤ sum_below (length y.now) (element y.now)) }
{
    let mut sum = start;
    for a in y {
        sum = sum.wrapping_add(*a);
    }
    sum
}

/// The sum of the products of `y` and `z`, place by place.
fn dot_of(y: &[i64], z: &[i64]) -> i64
    requires { length y.now ≡ length z.now }
    ensures { result ≡ wrapped (sum_below (length y.now) (λ i. element y.now i *ℤ element z.now i)) }
{
    let mut sum = 0i64;
    for (i, a) in y.iter().enumerate() {
        sum = sum.wrapping_add(a.wrapping_mul(z[i]));
    }
    sum
}
