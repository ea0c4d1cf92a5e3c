//! The numbers of a span that lie in one strip of an edge: the rows of one row of blocks, or the columns of one column.
ghost use Rattle.std.specs.Prelude.{◌≡◌, ℕ, ◌+◌, ◌<◌, ◌≤◌, pos, ◌<ℤ◌, unsigned_abs};
ghost use Rattle.dd_views.specs.IndexList.{number_at_place};
ghost use Rattle.dd_views.specs.Span.{IsSpanIn};
ghost use Rattle.dd_touch.specs.Strips.{IsShortSpan, IsSlice};

use dd_views::Span3;

/// Numbers of a span one after the other that lie in one strip of an edge.
#[derive(Clone, Copy, Debug)]
pub(crate) struct Slice {
    /// The strip, from 0.
    pub(crate) strip: u32,
    /// The place, from 1, behind that of the last number.
    pub(crate) end: u64,
}

/// The numbers of a span from the one at a place on, up to the last one in the strip in which this one lies.
pub(crate) fn slice_from(span: &Span3, size: u32, place: u64) -> Slice
    requires span { IsShortSpan span.now }
    requires some { 1 ≤ size }
    requires low { 1 ≤ place }
    requires high { place ≤ span.now.count }
    ensures { IsSlice span.now size place result.strip result.end }
{
    let size = u64::from(size);
    let index = index_at(span, place);
    let more = room(span, index % size, size) / stride(span);
    Slice {
        strip: (index / size) as u32,
        end: (place + more).min(u64::from(span.count)) + 1,
    }
}

/// How far a span may go on from a number of a strip, in the direction of its step, without leaving the strip.
fn room(span: &Span3, before: u64, size: u64) -> u64
    requires { before < size }
    ensures up { pos 0 <ℤ span.now.step → result + before + 1 ≡ size }
    ensures down { span.now.step <ℤ pos 0 → result ≡ before }
{
    if span.step > 0 {
        size - 1 - before
    } else {
        before
    }
}

/// One less than the number at a place.
fn index_at(span: &Span3, place: u64) -> u64
    requires span { IsShortSpan span.now }
    requires low { 1 ≤ place }
    requires high { place ≤ span.now.count }
    ensures number { result + 1 ≡ number_at_place span.now place }
    ensures within { (length : ℕ) → IsSpanIn length span.now → result < length }
{
    let first = u64::from(span.first) - 1;
    let way = (place - 1) * stride(span);
    if span.step > 0 {
        first + way
    } else {
        first - way
    }
}

/// The size of the step.
fn stride(span: &Span3) -> u64
    ensures { result ≡ unsigned_abs span.now.step }
{
    span.step.unsigned_abs()
}
