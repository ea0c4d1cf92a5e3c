//! Sets of numbers, as sorted lists.
ghost use Rattle.std.specs.Prelude.{◌≡◌, ◌+◌, ◌-◌, ◌^◌, ◌<◌, ◌++◌, IfOk};
ghost use Rattle.std.specs.List.{All, filter, range_with_len};
ghost use Rattle.std.specs.List.Sorted.{IsStrictlyIncreasing};
ghost use Rattle.dd_spans.specs.Numbers.{rising_numbers};
ghost use Rattle.dd_spans.specs.Kept.{is_kept};

use crate::cut::{begins_with, cut_at};
use std::alloc::{AllocError, Global};

/// The numbers of a list, sorted, each once.
pub(crate) fn rising(alloc: Global, list: &[u64]) -> Result<Vec<u64>, AllocError>
    ensures { IfOk result (λ numbers. numbers.items ≡ rising_numbers list.now) }
{
    let mut numbers = Vec::new(alloc);
    numbers.extend_from_slice(list)?;
    numbers.sort_unstable();
    numbers.dedup();
    Ok(numbers)
}

/// So many numbers that follow each other, from `first` on.
pub(crate) fn following(alloc: Global, first: u64, count: u64) -> Result<Vec<u64>, AllocError>
    requires { first + count < 2 ^ 64 }
    ensures { IfOk result (λ numbers. numbers.items ≡ range_with_len first count) }
{
    (first..first + count).collect(alloc)
}

/// Of sorted numbers those that others share, or those that they don't.
pub(crate) fn kept(
    alloc: Global,
    ours: &[u64],
    theirs: &[u64],
    shared: bool,
) -> Result<Vec<u64>, AllocError>
    requires ours { IsStrictlyIncreasing ours.now }
    requires theirs { IsStrictlyIncreasing theirs.now }
    ensures { IfOk result (λ numbers. numbers.items ≡ filter (is_kept shared theirs.now) ours.now) }
{
    let mut numbers = Vec::new(alloc);
    let mut left = theirs;
    for n in ours {
        left = cut_at(left, *n).1;
        if begins_with(left, *n) == shared {
            numbers.push(*n)?;
        }
    }
    Ok(numbers)
}

/// Sorted numbers and others together.
pub(crate) fn joined(alloc: Global, ours: &[u64], theirs: &[u64]) -> Result<Vec<u64>, AllocError>
    requires ours { IsStrictlyIncreasing ours.now }
    requires theirs { IsStrictlyIncreasing theirs.now }
    requires below { All (λ n. n < 2 ^ 64 - 1) ours.now }
    ensures { IfOk result (λ numbers. numbers.items ≡ rising_numbers (ours.now ++ theirs.now)) }
{
    let mut numbers = Vec::new(alloc);
    let mut left = theirs;
    for n in ours {
        let (below, from) = cut_at(left, *n);
        numbers.extend_from_slice(below)?;
        numbers.push(*n)?;
        left = cut_at(from, *n + 1).1;
    }
    numbers.extend_from_slice(left)?;
    Ok(numbers)
}
