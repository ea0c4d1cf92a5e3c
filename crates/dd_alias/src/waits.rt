//! The tasks that one must wait for.
ghost use Rattle.std.specs.Prelude.{◌↔◌, ℕ, All, Contains, IfOk, IsTrue};
ghost use Rattle.std.specs.List.Sorted.{IsStrictlyIncreasing};
ghost use Rattle.dd_views.specs.declared.shape.Shape.{Shape};
ghost use Rattle.dd_alias.specs.Extents.{AreShown};
ghost use Rattle.dd_alias.specs.Waits.{AreWaits, IsEarlier};

use crate::extent::Extent;
use std::alloc::{AllocError, Global};

/// The numbers of those among the tasks of some extents, by the task's own extents and its number. The extents of a task
/// stand side by side, and its number is there from the first that clashes on.
#[inline(never)]
pub fn waits_among(
    alloc: Global,
    extents: &[Extent],
    own: &[Extent],
    number: u32,
) -> Result<Vec<u32>, AllocError>
    requires shapes { (shape_at : ℕ → Shape) × AreShown shape_at extents.now × AreShown shape_at own.now }
    requires earlier { All (IsEarlier number) extents.now }
    ensures { IfOk result (λ found. AreWaits extents.now own.now number found.items) }
{
    let mut found = Vec::new(alloc);
    let mut last = 0;
    for extent in extents {
        if extent.task == last {
            continue;
        }
        if extent.clashes_with_one(own) {
            last = extent.task;
            found.push(last)?;
        }
    }
    Ok(found)
}

/// Puts numbers into order, each of them once. Most are so from the start.
pub fn rise(numbers: &mut Vec<u32>)
    ensures rising { IsStrictlyIncreasing numbers.new.items }
    ensures same { (u : ℕ) → Contains numbers.new.items u ↔ Contains numbers.old.items u }
{
    if !is_rising(numbers.as_slice()) {
        numbers.sort_unstable();
        numbers.dedup();
    }
}

/// Whether each number is above the one before.
fn is_rising(numbers: &[u32]) -> bool
    ensures { IsTrue result → IsStrictlyIncreasing numbers.now }
{
    for index in 1..numbers.len() {
        if numbers[index - 1] >= numbers[index] {
            return false;
        }
    }
    true
}
