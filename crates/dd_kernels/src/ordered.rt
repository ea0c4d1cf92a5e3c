//! Kernels in which the place of an element counts.
ghost use Rattle.std.specs.Prelude.{◌≡◌, ℕ, ◌<◌, ℤ, List, reverse, length};
ghost use Rattle.std.specs.List.Sorted.{IsPermutation, IsSorted};
ghost use Rattle.std.specs.Ordering.{int_cmp};
ghost use Rattle.dd_kernels.specs.Lists.{rotated, rising, sums};

/// Turns the order round.
pub fn rev(x: &mut [i64])
    ensures { x.new ≡ reverse x.old }
{
    x.reverse();
}

/// Moves each element `k` places to the front, round the end; to the back where `k` is below 0.
pub fn rot(x: &mut [i64], k: i64)
    ensures { x.new ≡ rotated k x.old }
{
    if !x.is_empty() {
        let places = k.rem_euclid(x.len() as i64) as usize;
        x.rotate_left(places);
    }
}

/// Puts the elements in rising order.
pub fn sort(x: &mut [i64])
    ensures value { x.new ≡ rising x.old }
    ensures sorted { IsSorted int_cmp x.new }
    ensures permutation { IsPermutation x.old x.new }
{
    x.sort_unstable();
}

/// Writes into each place the sum of the elements up to it.
pub fn scan(x: &mut [i64])
    ensures { x.new ≡ sums x.old }
{
    let mut sum = 0i64;
    for a in x.iter_mut() {
        sum = sum.wrapping_add(*a);
        *a = sum;
    }
}
