//! Places that one copy takes from another.
ghost use Rattle.std.specs.Prelude.{◌≡◌, ◌-◌, ◌^◌, ◌<◌, ◌↔◌, All, IfOk, IsTrue};
ghost use Rattle.dd_blocks.specs.Numbered.{IsNumberIn};
ghost use Rattle.dd_stamps.specs.Cells.{size_of};

use anyhow::{Result, bail};
use dd_blocks::Plan;
use dd_spans::Runs;
use dd_stamps::{Stamped, blank};
use std::alloc::{AllocError, Global};

/// Takes each place that the step divides so many times. The sum of the values then, which wraps.
pub(crate) fn take_times(alloc: Global, plan: &Plan, step: u64, times: u32) -> Result<i64>
    requires { IsNumberIn plan.now.blocks 1 }
{
    let other = blank(alloc, plan, 1)?;
    let mut copy = blank(alloc, plan, 1)?;
    let size = copy.versions().len();
    let list = divided(alloc, size, step)?;
    if !are_below(&list, u64::MAX) || !are_below(&list, size) {
        bail!("too many places");
    }
    let places = places_of(alloc, &list, size)?;
    take_all(&mut copy, &other, &places, times)?;
    Ok(sum_of(copy.values()))
}

/// The sum of values, which wraps.
pub(crate) fn sum_of(values: &[i64]) -> i64 {
    let mut sum = 0i64;
    for value in values {
        sum = sum.wrapping_add(*value);
    }
    sum
}

// The numbers below a size that the step divides.
fn divided(alloc: Global, size: u64, step: u64) -> Result<Vec<u64>, AllocError> {
    let mut list = Vec::new(alloc);
    for place in 0..size {
        if place.checked_rem(step) == Some(0) {
            list.push(place)?;
        }
    }
    Ok(list)
}

fn are_below(list: &[u64], size: u64) -> bool
    ensures { IsTrue result ↔ All (λ p. p < size) list.now }
{
    list.iter().all(|place| *place < size)
}

// The places of a list, which are below a size.
fn places_of(alloc: Global, list: &[u64], size: u64) -> Result<Runs, AllocError>
    requires small { All (λ p. p < 2 ^ 64 - 1) list.now }
    requires below { All (λ p. p < size) list.now }
    ensures { IfOk result (λ places. All (λ p. p < size) places.list) }
{
    Runs::of_list(alloc, list)
}

// Takes the places so many times.
fn take_all<'p>(
    copy: &mut Stamped<'p>,
    other: &Stamped<'p>,
    places: &Runs,
    times: u32,
) -> Result<()>
    requires plan { other.now.plan ≡ copy.old.plan }
    requires block { other.now.block ≡ copy.old.block }
    requires places { All (λ p. p < size_of copy.old.plan.now copy.old.block) places.now.list }
{
    let Some(runs) = places.len().checked_mul(2) else {
        bail!("too many places");
    };
    for _ in 0..times {
        copy.reserve(runs)?;
        copy.take_from(other, places);
    }
    Ok(())
}
