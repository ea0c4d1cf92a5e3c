//! The numbers of a span and their places, from 1.
ghost use Rattle.std.specs.Prelude.{◌≡◌, ℕ, ◌+◌, ◌*◌, ◌/◌, ◌^◌, ◌<◌, ◌≤◌, ◌↔◌, IsTrue, false, unsigned_abs};
ghost use Rattle.dd_views.specs.IndexList.{number_at_place};
ghost use Rattle.dd_views.specs.Span.{IsSmallSpan};
ghost use Rattle.dd_alias.specs.Intervals.{IsBound};
ghost use Rattle.dd_alias.specs.Places.{IsAt, IsBetween, IsIn};
ghost use Rattle.dd_alias.specs.Runs.{HasNumber};

use crate::interval::Interval;
use crate::run::Run;
use dd_views::Span3;

/// The numbers of a span, rising.
pub fn run_of(span: &Span3) -> Run
    requires { IsSmallSpan span.now }
    ensures { (x : ℕ) → HasNumber result x ↔ IsIn span.now x }
{
    let first = u64::from(span.first);
    let stride = stride(span);
    if span.count == 0 {
        return Run::none_from(1);
    }
    let way = (u64::from(span.count) - 1) * stride;
    if span.step > 0 {
        return Run {
            first,
            stride,
            limit: first + way,
        };
    }
    Run {
        first: first - way,
        stride,
        limit: first,
    }
}

/// Between which numbers those of a span stand.
pub fn bounds(span: &Span3) -> Interval
    requires span { IsSmallSpan span.now }
    requires some { 0 < span.now.count }
    ensures bound { IsBound span.now result }
    ensures within { (x : ℕ) → IsIn span.now x → IsBetween result x }
    ensures solid { unsigned_abs span.now.step ≡ 1 → (x : ℕ) → IsBetween result x → IsIn span.now x }
    ensures order { result.low ≤ result.high }
    ensures small { result.high < 2 ^ 63 }
{
    let one = number_at(span, 1);
    let other = number_at(span, u64::from(span.count));
    Interval {
        low: one.min(other),
        high: one.max(other),
    }
}

/// Whether all numbers of one span are below all of the other, or one has none.
pub fn are_apart(a: &Span3, b: &Span3) -> bool
    requires a { IsSmallSpan a.now }
    requires b { IsSmallSpan b.now }
    ensures apart { IsTrue result → (x : ℕ) → IsIn a.now x → IsIn b.now x → ⊥ }
    ensures solid { result ≡ false → unsigned_abs a.now.step ≡ 1 → unsigned_abs b.now.step ≡ 1 → (x : ℕ) × IsIn a.now x × IsIn b.now x }
{
    if a.count == 0 || b.count == 0 {
        return true;
    }
    let of_a = bounds(a);
    let of_b = bounds(b);
    of_a.high < of_b.low || of_b.high < of_a.low
}

/// The number at a place.
pub fn number_at(span: &Span3, place: u64) -> u64
    requires span { IsSmallSpan span.now }
    requires low { 1 ≤ place }
    requires high { place ≤ span.now.count }
    ensures { result ≡ number_at_place span.now place }
{
    let first = u64::from(span.first);
    let way = (place - 1) * stride(span);
    if span.step > 0 {
        first + way
    } else {
        first - way
    }
}

/// The place of a number of the span.
pub fn place_of(span: &Span3, number: u64) -> u64
    requires span { IsSmallSpan span.now }
    requires there { IsIn span.now number }
    ensures at { IsAt span.now number result }
    ensures only { (i : ℕ) → IsAt span.now number i → i ≡ result }
{
    quotient(u64::from(span.first).abs_diff(number), stride(span)) + 1
}

/// The size of the step.
pub fn stride(span: &Span3) -> u64
    ensures { result ≡ unsigned_abs span.now.step }
{
    span.step.unsigned_abs()
}

/// A quotient. Most views have steps of 1, and a test is faster than a division.
pub fn quotient(number: u64, divisor: u64) -> u64
    requires { 0 < divisor }
    ensures { result ≡ number / divisor }
{
    if divisor == 1 {
        return number;
    }
    number / divisor
}
