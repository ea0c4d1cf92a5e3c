//! The numbers that a range lists.
ghost use Rattle.std.specs.Prelude.{◌≡◌, ◌≢◌, ◌+◌, ◌*◌, ◌^◌, ◌<◌, ◌≤◌, ◌↔◌, pos, ◌-ℤ◌, ◌≤ℤ◌, ◌<ℤ◌, IsTrue, IsErr, IfOk, IfErr, OnOk, OnErr, unsigned_abs};
ghost use Rattle.dd_views.specs.Progression.{HasPassed, IsBadRange, IsWithin, bounds_of};
ghost use Rattle.dd_views.specs.Room.{IsOpen, IsRoom, IsKept};
ghost use Rattle.dd_views.specs.Span.{IsSpanOf, IsSpanIn};

use crate::bounds::{Bounds, bounds_of};
use crate::fault::ViewFault;
use crate::range::Range;
use crate::span3::Span3;

/// What stands for every range that lists nothing.
const EMPTY: Span3 = Span3 {
    first: 1,
    step: 1,
    count: 0,
};

/// The numbers that a range lists, of the numbers 1 to `length`.
///
/// A range that lists nothing is `first 1, step 1, count 0`, and one that lists one number has step 1.
/// `BadRange` comes exactly where the step is 0 or a number outside 1 to `length` is listed.
pub fn span(range: Range, length: u32) -> Result<Span3, ViewFault>
    ensures ok { IfOk result (IsSpanOf (bounds_of range length)) }
    ensures within { IfOk result (IsSpanIn length) }
    ensures refused { IsErr result ↔ IsBadRange (bounds_of range length) length }
    ensures fault { IfErr result (λ e. e ≡ ViewFault.BadRange) }
{
    let bounds = bounds_of(range, length);
    if bounds.step == 0 {
        return Err(ViewFault::BadRange);
    }
    if is_empty(&bounds) {
        return Ok(EMPTY);
    }
    if !begins_within(&bounds, length) {
        return Err(ViewFault::BadRange);
    }
    listed(&bounds, length)
}

/// The numbers of a range that isn't empty and whose first number is within 1 to `length`.
fn listed(bounds: &Bounds, length: u32) -> Result<Span3, ViewFault>
    requires { IsOpen bounds.now length }
    ensures ok { IfOk result (IsSpanOf bounds.now) }
    ensures within { IfOk result (IsSpanIn length) }
    ensures refused { IsErr result ↔ IsBadRange bounds.now length }
    ensures fault { IfErr result (λ e. e ≡ ViewFault.BadRange) }
{
    let jumps = last_jump(bounds);
    if jumps * bounds.stride() > room(bounds, length) {
        return Err(ViewFault::BadRange);
    }
    Ok(kept(bounds, jumps as u32))
}

/// What is kept of a range that ends after some steps.
fn kept(bounds: &Bounds, jumps: u32) -> Span3
    requires low { pos 1 ≤ℤ bounds.now.first }
    requires high { bounds.now.first <ℤ pos (2 ^ 32) }
    requires fits { jumps + 1 < 2 ^ 32 }
    ensures { IsKept bounds.now jumps result }
{
    Span3 {
        first: bounds.first as u32,
        step: if jumps == 0 { 1 } else { bounds.step },
        count: jumps + 1,
    }
}

/// Whether the range lists nothing, where its step isn't 0.
fn is_empty(bounds: &Bounds) -> bool
    ensures { IsTrue result ↔ HasPassed bounds.now bounds.now.first }
{
    if bounds.step > 0 {
        bounds.first > bounds.last
    } else {
        bounds.step < 0 && bounds.first < bounds.last
    }
}

/// Whether the first number is within 1 to `length`.
fn begins_within(bounds: &Bounds, length: u32) -> bool
    ensures { IsTrue result ↔ IsWithin length bounds.now.first }
{
    bounds.first >= 1 && bounds.first <= i64::from(length)
}

/// How many steps lead from the first number to the last that is listed.
fn last_jump(bounds: &Bounds) -> u64
    requires { bounds.now.step ≢ pos 0 }
    ensures before { result * unsigned_abs bounds.now.step ≤ unsigned_abs (bounds.now.last -ℤ bounds.now.first) }
    ensures fits { result * unsigned_abs bounds.now.step < 2 ^ 64 }
    ensures behind { unsigned_abs (bounds.now.last -ℤ bounds.now.first) < (result + 1) * unsigned_abs bounds.now.step }
{
    bounds.distance() / bounds.stride()
}

/// How far the numbers may go from the first, in the direction of the step.
fn room(bounds: &Bounds, length: u32) -> u64
    requires { IsWithin length bounds.now.first }
    ensures { IsRoom bounds.now length result }
{
    if bounds.step > 0 {
        u64::from(length) - bounds.first as u64
    } else {
        bounds.first as u64 - 1
    }
}
