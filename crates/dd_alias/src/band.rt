//! The rows that a pattern keeps in one common column after another.
ghost use Rattle.std.specs.Prelude.{◌≡◌, ℕ, ◌*◌, ◌/◌, ◌-◌, ◌^◌, ◌<◌, ◌≤◌, ◌↔◌, ◌≢◌, pos, MatchBool, min, unsigned_abs};
ghost use Rattle.dd_views.specs.Span.{IsSmallSpan};
ghost use Rattle.dd_alias.specs.Congruence.{IsMultiple};
ghost use Rattle.dd_alias.specs.Lines.{AreAlike, AreUnlike, AreWays, IsBand, IsDiagonal, IsFacing, IsWithin, KeepsAt, high_at, low_at};
ghost use Rattle.dd_alias.specs.Patterns.{IsPattern};
ghost use Rattle.dd_alias.specs.Places.{IsBetween, IsIn};
ghost use Rattle.dd_alias.specs.Runs.{HasNumber};

use crate::columns::{beyond, flip, is_whole, kept};
use crate::congruence::{common_divisor, complement, lead};
use crate::interval::{Interval, Ways};
use crate::line::Line;
use crate::pattern::Pattern;
use crate::place::{number_at, place_of, quotient, stride};
use crate::run::Run;
use dd_views::{Part, Span3};

/// The rows of a pattern by their numbers: those that stand in the part to the diagonal.
#[derive(Clone, Copy, Debug)]
pub struct Band {
    pub part: Part,
    /// The row whose place is that of the column, for each common column.
    pub diagonal: Line,
    /// How far it is from the diagonal, up and down, to the next number that is some gaps from a common row: as far in
    /// each column. No common row that the part keeps is nearer.
    pub ways: Ways,
}

impl Band {
    /// The band of a pattern along some of its rows and columns.
    pub fn of(pattern: &Pattern, rows: &Run, cols: &Run) -> Band
        requires pattern { IsPattern pattern.now }
        requires cols { (x : ℕ) → HasNumber cols.now x → IsIn pattern.now.cols x }
        ensures band { IsBand pattern.now cols.now result }
        ensures ways { AreWays result.part result.diagonal rows.now result.ways }
    {
        let part = facing(pattern);
        let diagonal = diagonal(pattern, cols);
        Band {
            part,
            diagonal,
            ways: ways(part, &diagonal, rows),
        }
    }

    /// Between which of some rows those stand that are kept at a turn, from 0.
    pub fn rows_at(&self, rows: &Run, turn: u64) -> Interval
        requires { IsWithin self.now rows.now turn }
        ensures rows { (r : ℕ) → HasNumber rows.now r → (KeepsAt self.now turn r ↔ IsBetween result r) }
        ensures low { result.low ≡ low_at self.now rows.now turn }
        ensures high { result.high ≡ high_at self.now rows.now turn }
    {
        kept(
            self.part,
            self.diagonal.number(turn),
            self.ways,
            rows.first,
            rows.limit,
        )
    }
}

/// How far it is from the diagonal, up and down, to the next number that is some gaps from a row, where a part doesn't
/// keep what is nearer. All turns move the line, and all steps the rows, by multiples of the gap.
fn ways(part: Part, diagonal: &Line, rows: &Run) -> Ways
    ensures { AreWays part diagonal.now rows.now result }
{
    let gap = gap(diagonal, rows);
    let up = lead(diagonal.first, rows.first, gap);
    Ways {
        up: beyond(part, up, gap),
        down: beyond(part, complement(up, gap), gap),
    }
}

/// What the strides of a line and of some rows are multiples of: 1, where it would be too large to be of use.
fn gap(diagonal: &Line, rows: &Run) -> u64
    ensures above { 0 < result }
    ensures small { result < 2 ^ 63 }
    ensures line { IsMultiple result diagonal.now.stride }
    ensures rows { IsMultiple result rows.now.stride }
{
    let gap = common_divisor(diagonal.stride, rows.stride);
    if gap < 1 << 63 { gap } else { 1 }
}

/// The part that keeps by the numbers of rows what the pattern's keeps by their places.
fn facing(pattern: &Pattern) -> Part
    requires { IsPattern pattern.now }
    ensures whole { (pattern.now.part ≡ Part.All) ↔ (result ≡ Part.All) }
    ensures facing { IsFacing pattern.now result }
{
    if pattern.rows.step > 0 {
        pattern.part
    } else {
        flip(pattern.part)
    }
}

/// The row whose place is that of the column, for each of some columns. A whole pattern has none, since it may have
/// fewer rows than columns.
fn diagonal(pattern: &Pattern, cols: &Run) -> Line
    requires pattern { IsPattern pattern.now }
    requires cols { (x : ℕ) → HasNumber cols.now x → IsIn pattern.now.cols x }
    ensures { IsDiagonal pattern.now cols.now result }
{
    if is_whole(pattern.part) || cols.first > cols.limit {
        return Line {
            first: 1,
            stride: 0,
            rises: true,
        };
    }
    let place = place_of(&pattern.cols, cols.first);
    Line {
        first: number_at(&pattern.rows, place),
        stride: slope(&pattern.rows, &pattern.cols, cols.stride),
        rises: are_alike(&pattern.rows, &pattern.cols),
    }
}

/// Whether both rise or both fall.
fn are_alike(rows: &Span3, cols: &Span3) -> bool
    requires rows { rows.now.step ≢ pos 0 }
    requires cols { cols.now.step ≢ pos 0 }
    ensures { MatchBool result (AreAlike rows.now cols.now) (AreUnlike rows.now cols.now) }
{
    (rows.step > 0) == (cols.step > 0)
}

/// How far the row moves with a column that moves so far.
fn slope(rows: &Span3, cols: &Span3, way: u64) -> u64
    requires { IsSmallSpan cols.now }
    ensures { result ≡ min (way / unsigned_abs cols.now.step * unsigned_abs rows.now.step) (2 ^ 64 - 1) }
{
    quotient(way, stride(cols)).saturating_mul(stride(rows))
}
