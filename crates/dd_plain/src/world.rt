//! The arrays as they are filled at first.
ghost use Rattle.std.specs.Prelude.{◌≡◌, ℕ, ◌+◌, ◌-◌, ◌^◌, ◌<◌, ◌≤◌, pos, map, length, replicate, All, IfOk};
ghost use Rattle.std.specs.List.{range_with_len};
ghost use Rattle.dd_blocks.specs.declared.array_row.ArrayRow.{ArrayRow};
ghost use Rattle.dd_blocks.specs.Grids.{IsGrid, element_count};
ghost use Rattle.dd_meaning.specs.Worlds.{filled, filled_at, lcg};
ghost use Rattle.dd_plain.specs.Lists.{lists_of};

use dd_blocks::{ArrayRow, Fill};
use std::alloc::{AllocError, Global};

/// All arrays, each filled.
pub(crate) fn filled_world(alloc: Global, arrays: &[ArrayRow]) -> Result<Vec<Vec<i64>>, AllocError>
    requires { All (λ (a : ArrayRow). element_count a.grid < 2 ^ 63) arrays.now }
    ensures { IfOk result (λ world. lists_of world.items ≡ map filled arrays.now) }
{
    let mut world = Vec::new(alloc);
    for array in arrays {
        world.push(filled(alloc, array)?)?;
    }
    Ok(world)
}

/// The values of an array at first.
fn filled(alloc: Global, array: &ArrayRow) -> Result<Vec<i64>, AllocError>
    requires { element_count array.now.grid < 2 ^ 63 }
    ensures { IfOk result (λ values. values.items ≡ filled array.now) }
{
    let count = array.grid.rows as usize * array.grid.cols as usize;
    match array.fill {
        Fill::Zeros => alike(alloc, 0, count),
        Fill::Const(k) => alike(alloc, k, count),
        Fill::Iota => rising(alloc, count),
        Fill::Lcg(seed) => scattered(alloc, seed, count),
    }
}

/// The same number everywhere.
fn alike(alloc: Global, k: i64, count: usize) -> Result<Vec<i64>, AllocError>
    ensures { IfOk result (λ values. values.items ≡ map (λ p. k) (range_with_len 0 count)) }
{
    vec![in alloc; k; count]
}

/// One more than the position.
fn rising(alloc: Global, count: usize) -> Result<Vec<i64>, AllocError>
    requires { count < 2 ^ 63 }
    ensures { IfOk result (λ values. values.items ≡ map (λ p. pos (p + 1)) (range_with_len 0 count)) }
{
    let mut values = Vec::with_capacity(alloc, count)?;
    for p in 0..count {
        values.push(p as i64 + 1)?;
    }
    Ok(values)
}

/// A number of 31 bits at each position.
fn scattered(alloc: Global, seed: i64, count: usize) -> Result<Vec<i64>, AllocError>
    requires { count < 2 ^ 63 }
    ensures { IfOk result (λ values. values.items ≡ map (λ p. pos (lcg seed p)) (range_with_len 0 count)) }
{
    let mut values = Vec::with_capacity(alloc, count)?;
    for p in 0..count {
        values.push(scattered_at(seed, p as u64))?;
    }
    Ok(values)
}

/// The number at a position. Arithmetic that wraps at 64 bits is that modulo 2^64.
fn scattered_at(seed: i64, p: u64) -> i64
    requires { p < 2 ^ 63 - 1 }
    ensures { result ≡ pos (lcg seed p) }
{
    let from = seed.cast_unsigned().wrapping_add(p + 1);
    let next = from
        .wrapping_mul(6_364_136_223_846_793_005)
        .wrapping_add(1_442_695_040_888_963_407);
    (next >> 33) as i64
}
