//! The loops that change a list where it stands.
//!
//! They go by blocks of eight: a loop over eight places is unrolled and becomes a few vector operations,
//! also where the two lists might lie one over the other for all that LLVM knows, since the block of the
//! second is read first.
ghost use Rattle.std.specs.Prelude.{◌≡◌, ℕ, ◌+◌, ◌≤◌, ℤ, length, map};
ghost use Rattle.std.specs.List.{between};
ghost use Rattle.dd_kernels.specs.Lists.{zip_with, Computes, ComputesOne};

/// Replaces each element of `x` by what `f` makes of it.
pub fn update<F: Fn(i64) -> i64>(x: &mut [i64], f: F)
    requires { F.IsAlwaysCallable f }
    ensures { (op : ℤ → ℤ) → ComputesOne (F.post f) op → x.new ≡ map op x.old }
{
    let blocks = x.len() / 8;
    for k in 0..blocks {
        update_each(&mut x[8 * k..8 * k + 8], &f);
    }
    update_each(&mut x[8 * blocks..], &f);
}

/// The same, one place after another.
fn update_each<F: Fn(i64) -> i64>(x: &mut [i64], f: &F)
    requires { F.IsAlwaysCallable f.now }
    ensures { (op : ℤ → ℤ) → ComputesOne (F.post f.now) op → x.new ≡ map op x.old }
{
    for a in x.iter_mut() {
        *a = f(*a);
    }
}

/// Replaces each element of `x` by what `f` makes of it and of the element of `y` at its place.
pub fn combine<F: Fn(i64, i64) -> i64>(x: &mut [i64], y: &[i64], f: F)
    requires lengths { length x.old ≡ length y.now }
    requires callable { F.IsAlwaysCallable f }
    ensures { (op : ℤ → ℤ → ℤ) → Computes (F.post f) op → x.new ≡ zip_with op x.old y.now }
{
    let blocks = x.len() / 8;
    for k in 0..blocks {
        let here = eight(y, 8 * k);
        combine_each(&mut x[8 * k..8 * k + 8], &here, &f);
    }
    combine_each(&mut x[8 * blocks..], &y[8 * blocks..], &f);
}

/// The same, one place after another.
fn combine_each<F: Fn(i64, i64) -> i64>(x: &mut [i64], y: &[i64], f: &F)
    requires lengths { length x.old ≡ length y.now }
    requires callable { F.IsAlwaysCallable f.now }
    ensures { (op : ℤ → ℤ → ℤ) → Computes (F.post f.now) op → x.new ≡ zip_with op x.old y.now }
{
    for (i, a) in x.iter_mut().enumerate() {
        *a = f(*a, y[i]);
    }
}

/// The eight elements from a place on.
pub fn eight(y: &[i64], at: usize) -> [i64; 8]
    requires { at + 8 ≤ length y.now }
    ensures { result ≡ between at (at + 8) y.now }
{
    *y[at..at + 8].as_array::<8>().unwrap()
}

/// Writes `y` into `x`, one place after another.
pub fn put(x: &mut [i64], y: &[i64])
    requires { length x.old ≡ length y.now }
    ensures { x.new ≡ y.now }
{
    for (i, a) in x.iter_mut().enumerate() {
        *a = y[i];
    }
}
