//! Kernels that compute each element from the scalar and the elements at its place.
//!
//! Most are functions of their own, never inlined: in one large function their loops would share its registers.
ghost use Rattle.std.specs.Prelude.{
  ◌≡◌,
  ℕ,
  ℤ,
  pos,
  ◌+ℤ◌,
  ◌-ℤ◌,
  ◌*ℤ◌,
  List,
  length,
  map,
  replicate,
};
ghost use Rattle.std.specs.Int.{w64, int_bit_xor, int_min, int_max};
ghost use Rattle.dd_kernels.specs.Lists.{
  wrapped,
  wrapping_sum,
  wrapping_difference,
  wrapping_product,
  tabulate,
  zip_with,
};

use crate::in_place::{combine, eight, put, update};

/// Writes `k` into each element.
pub fn fill(x: &mut [i64], k: i64)
    ensures { x.new ≡ replicate (length x.old) k }
{
    update(x, |_| k);
}

/// Adds `k` to each element.
#[tactic(auto, using(std::proofs::lemmas::Int::wrapping_add_is))]
#[inline(never)]
pub fn addk(x: &mut [i64], k: i64)
    ensures { x.new ≡ map (λ a. wrapping_sum a k) x.old }
{
    update(x, |a| a.wrapping_add(k));
}

/// Multiplies each element by `k`.
#[tactic(auto, using(std::proofs::lemmas::Int::wrapping_mul_is))]
#[inline(never)]
pub fn scale(x: &mut [i64], k: i64)
    ensures { x.new ≡ map (λ a. wrapping_product a k) x.old }
{
    update(x, |a| a.wrapping_mul(k));
}

/// Subtracts each element from 0.
#[tactic(auto, using(crate::proofs::NumbersLemmas::difference_from_zero))]
#[inline(never)]
pub fn neg(x: &mut [i64])
    ensures { x.new ≡ map (λ a. wrapped (pos 0 -ℤ a)) x.old }
{
    update(x, |a| 0i64.wrapping_sub(a));
}

/// Writes `k` and the numbers after it. It goes by blocks of 32, whose loop is unrolled and becomes
/// vector operations.
#[inline(never)]
pub fn iota(x: &mut [i64], k: i64)
    ensures { x.new ≡ tabulate (length x.old) (λ i. wrapped (k +ℤ pos i)) }
{
    let blocks = x.len() / 32;
    for b in 0..blocks {
        let first = k.wrapping_add((32 * b) as i64);
        count_on(&mut x[32 * b..32 * b + 32], first);
    }
    let first = k.wrapping_add((32 * blocks) as i64);
    count_on(&mut x[32 * blocks..], first);
}

/// The same, one place after another.
fn count_on(x: &mut [i64], k: i64)
    ensures { x.new ≡ tabulate (length x.old) (λ i. wrapped (k +ℤ pos i)) }
{
    for (i, a) in x.iter_mut().enumerate() {
        *a = k.wrapping_add(i as i64);
    }
}

/// Writes `y` into `x`.
pub fn copy(x: &mut [i64], y: &[i64])
    requires { length x.old ≡ length y.now }
    ensures { x.new ≡ y.now }
{
    x.copy_from_slice(y);
}

/// Exchanges `x` and `y`, by blocks of eight as `combine` does.
pub fn swap(x: &mut [i64], y: &mut [i64])
    requires { length x.old ≡ length y.old }
    ensures first { x.new ≡ y.old }
    ensures second { y.new ≡ x.old }
{
    let blocks = x.len() / 8;
    for k in 0..blocks {
        let first = eight(x, 8 * k);
        let second = eight(y, 8 * k);
        put(&mut x[8 * k..8 * k + 8], &second);
        put(&mut y[8 * k..8 * k + 8], &first);
    }
    x[8 * blocks..].swap_with_slice(&mut y[8 * blocks..]);
}

/// Adds `y` to `x`.
#[tactic(auto, using(std::proofs::lemmas::Int::wrapping_add_is))]
#[inline(never)]
pub fn add(x: &mut [i64], y: &[i64])
    requires { length x.old ≡ length y.now }
    ensures { x.new ≡ zip_with wrapping_sum x.old y.now }
{
    combine(x, y, |a, b| a.wrapping_add(b));
}

/// Subtracts `y` from `x`.
#[tactic(auto, using(std::proofs::lemmas::Int::wrapping_sub_is))]
#[inline(never)]
pub fn sub(x: &mut [i64], y: &[i64])
    requires { length x.old ≡ length y.now }
    ensures { x.new ≡ zip_with wrapping_difference x.old y.now }
{
    combine(x, y, |a, b| a.wrapping_sub(b));
}

/// Multiplies `x` by `y`, place by place.
#[tactic(auto, using(std::proofs::lemmas::Int::wrapping_mul_is))]
#[inline(never)]
pub fn mul(x: &mut [i64], y: &[i64])
    requires { length x.old ≡ length y.now }
    ensures { x.new ≡ zip_with wrapping_product x.old y.now }
{
    combine(x, y, |a, b| a.wrapping_mul(b));
}

/// Adds `k` times `y` to `x`.
#[inline(never)]
pub fn axpy(x: &mut [i64], y: &[i64], k: i64)
    requires { length x.old ≡ length y.now }
    ensures { x.new ≡ zip_with (λ a b. wrapped (a +ℤ k *ℤ b)) x.old y.now }
{
    combine(x, y, |a, b| a.wrapping_add(k.wrapping_mul(b)));
}

/// The exclusive or of `x` and `y`, bit by bit.
#[inline(never)]
pub fn xor(x: &mut [i64], y: &[i64])
    requires { length x.old ≡ length y.now }
    ensures { x.new ≡ zip_with (int_bit_xor w64) x.old y.now }
{
    combine(x, y, |a, b| a ^ b);
}

/// The lesser of `x` and `y`, place by place.
#[inline(never)]
pub fn min(x: &mut [i64], y: &[i64])
    requires { length x.old ≡ length y.now }
    ensures { x.new ≡ zip_with int_min x.old y.now }
{
    combine(x, y, |a, b| a.min(b));
}

/// The greater of `x` and `y`, place by place.
#[inline(never)]
pub fn max(x: &mut [i64], y: &[i64])
    requires { length x.old ≡ length y.now }
    ensures { x.new ≡ zip_with int_max x.old y.now }
{
    combine(x, y, |a, b| a.max(b));
}
