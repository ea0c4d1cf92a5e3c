//! Whether two views share an element.
//!
//! # Common rows
//! The rows of a view are numbers in steps: `a + s·i`. Those of both views are too: the first of them is the least solution of
//! two congruences, and their step is the least common multiple of both steps. So it is with the columns.
//!
//! # One common column
//! A column of a part keeps rows that stand one after the other, from the diagonal on or up to it. So each view keeps the
//! rows between two numbers, and both keep a common row where one lies between the greater of the two low numbers
//! and the lesser of the two high ones.
//!
//! # All common columns
//! The row on the diagonal moves by as much from each common column to the next. Let g be the greatest common divisor of this way
//! and of the rows' step. The numbers that differ from a common row by multiples of g are as far from the diagonal in each column, and
//! no common row is nearer. So the four numbers move evenly: where one view ends below the other in the first and in the
//! last common column, it does so in each between.
//!
//! # Cost
//! Views whose least and greatest rows or columns keep them apart are refused by these alone, and whole views in
//! steps of 1 or -1 are accepted so. Else there are six Euclidean algorithms, mostly of a step or two. Then some products, and
//! seldom a division, answer for the first and the last common column, or row where these are fewer. That decides
//! for whole views, mostly for parallel diagonals, and for parts that are apart or share a row in one of the two. Else each
//! half of the columns between is asked the same, one before the other, until a shared element is found: parts that
//! cross take about as many steps as halvings.
ghost use Rattle.std.specs.Prelude.{◌≡◌, ℕ, ◌≤◌, ◌<◌, ◌↔◌, IsTrue};
ghost use Rattle.dd_views.specs.Views.{IsView};
ghost use Rattle.dd_alias.specs.Lines.{AreApartAt, IsBelow, IsTurn, IsWithin, KeepBoth, MeetBetween, StaysBelow};
ghost use Rattle.dd_alias.specs.Overlap.{Overlaps};
ghost use Rattle.dd_alias.specs.Patterns.{AreCommon, IsPattern, IsSolid, Meets, pattern_of};
ghost use Rattle.dd_alias.specs.Runs.{HasNumber};

use crate::band::Band;
use crate::columns::is_whole;
use crate::pattern::Pattern;
use crate::place::{are_apart, run_of, stride};
use crate::run::Run;
use crate::shared::common;
use dd_views::View;

/// Whether both views are of one array and share a position of it, where views of one array have one height.
/// It takes no memory.
pub fn overlap(a: &View, b: &View) -> bool
    requires a { IsView a.now }
    requires b { IsView b.now }
    requires height { a.now.array ≡ b.now.array → a.now.height ≡ b.now.height }
    ensures { IsTrue result ↔ Overlaps a.now b.now }
{
    if a.array != b.array {
        return false;
    }
    if a.height == 0 {
        return false;
    }
    share(a, b)
}

/// Whether the rows and columns of both meet in an element that both have. Most views are apart, or whole ones in
/// steps of 1, and need no more than the least and the greatest numbers.
fn share(a: &View, b: &View) -> bool
    requires a { IsPattern (pattern_of a.now) }
    requires b { IsPattern (pattern_of b.now) }
    ensures { IsTrue result ↔ Meets (pattern_of a.now) (pattern_of b.now) }
{
    if are_apart(&a.rows, &b.rows) {
        return false;
    }
    if are_apart(&a.cols, &b.cols) {
        return false;
    }
    if is_solid(a) && is_solid(b) {
        return true;
    }
    meet(&Pattern::of(a), &Pattern::of(b))
}

/// Whether a view has all elements between its least and greatest numbers.
pub(crate) fn is_solid(view: &View) -> bool
    ensures { IsTrue result → IsSolid view.now }
{
    is_whole(view.part) && stride(&view.rows) == 1 && stride(&view.cols) == 1
}

/// Whether both patterns have an element.
fn meet(a: &Pattern, b: &Pattern) -> bool
    requires a { IsPattern a.now }
    requires b { IsPattern b.now }
    ensures { IsTrue result ↔ Meets a.now b.now }
{
    let rows = common(&run_of(&a.rows), &run_of(&b.rows));
    let cols = common(&run_of(&a.cols), &run_of(&b.cols));
    meet_along_fewer(a, b, &rows, &cols)
}

/// Whether both patterns have an element, by their common rows and columns.
fn meet_along_fewer(a: &Pattern, b: &Pattern, rows: &Run, cols: &Run) -> bool
    requires a { IsPattern a.now }
    requires b { IsPattern b.now }
    requires rows { AreCommon a.now.rows b.now.rows rows.now }
    requires cols { AreCommon a.now.cols b.now.cols cols.now }
    ensures { IsTrue result ↔ Meets a.now b.now }
{
    if rows.count() < cols.count() {
        let flipped_a = a.flipped();
        let flipped_b = b.flipped();
        return meet_in_some(&flipped_a, &flipped_b, cols, rows);
    }
    meet_in_some(a, b, rows, cols)
}

/// Whether both patterns have an element in some common column, by their common rows and columns.
fn meet_in_some(a: &Pattern, b: &Pattern, rows: &Run, cols: &Run) -> bool
    requires a { IsPattern a.now }
    requires b { IsPattern b.now }
    requires rows { AreCommon a.now.rows b.now.rows rows.now }
    requires cols { AreCommon a.now.cols b.now.cols cols.now }
    ensures { IsTrue result ↔ Meets a.now b.now }
{
    meet_along(
        &Band::of(a, rows, cols),
        &Band::of(b, rows, cols),
        rows,
        cols,
    )
}

/// Whether both bands keep a common row at a turn of the common columns.
fn meet_along(a: &Band, b: &Band, rows: &Run, cols: &Run) -> bool
    requires a { (t : ℕ) → IsTurn cols.now t → IsWithin a.now rows.now t }
    requires b { (t : ℕ) → IsTurn cols.now t → IsWithin b.now rows.now t }
    ensures { IsTrue result ↔ ((t : ℕ) × IsTurn cols.now t × KeepBoth a.now b.now rows.now t) }
{
    meet_between(a, b, rows, 0, cols.count())
}

/// Whether both bands keep a common row at a turn from `first` on, before `end`. The bounds of what they keep move
/// evenly from turn to turn, or not at all: where one band is below the other at the first and at the last turn, so
/// it is between. Else the question is asked of each half.
fn meet_between(a: &Band, b: &Band, rows: &Run, first: u64, end: u64) -> bool
    requires a { (t : ℕ) → t < end → IsWithin a.now rows.now t }
    requires b { (t : ℕ) → t < end → IsWithin b.now rows.now t }
    ensures { IsTrue result ↔ MeetBetween a.now b.now rows.now first end }
{
    if first >= end {
        return false;
    }
    let last = end - 1;
    if meet_at(a, b, rows, first) {
        return true;
    }
    if meet_at(a, b, rows, last) {
        return true;
    }
    if are_apart_at(a, b, rows, first, last) {
        return false;
    }
    let middle = first + (end - first) / 2;
    if meet_between(a, b, rows, first + 1, middle) {
        return true;
    }
    meet_between(a, b, rows, middle, last)
}

/// Whether at both of two turns one band is below the other, or one keeps none of some rows.
fn are_apart_at(a: &Band, b: &Band, rows: &Run, one: u64, other: u64) -> bool
    requires one_a { IsWithin a.now rows.now one }
    requires other_a { IsWithin a.now rows.now other }
    requires one_b { IsWithin b.now rows.now one }
    requires other_b { IsWithin b.now rows.now other }
    ensures { IsTrue result → AreApartAt a.now b.now rows.now one other }
{
    stays_below(a, b, rows, one, other)
        || stays_below(b, a, rows, one, other)
        || stays_below(a, a, rows, one, other)
        || stays_below(b, b, rows, one, other)
}

/// Whether one band is below the other at both of two turns.
fn stays_below(a: &Band, b: &Band, rows: &Run, one: u64, other: u64) -> bool
    requires one_a { IsWithin a.now rows.now one }
    requires other_a { IsWithin a.now rows.now other }
    requires one_b { IsWithin b.now rows.now one }
    requires other_b { IsWithin b.now rows.now other }
    ensures { IsTrue result ↔ StaysBelow a.now b.now rows.now one other }
{
    is_below(a, b, rows, one) && is_below(a, b, rows, other)
}

/// Whether what a band keeps of some rows at a turn is below what the other keeps.
fn is_below(a: &Band, b: &Band, rows: &Run, turn: u64) -> bool
    requires a { IsWithin a.now rows.now turn }
    requires b { IsWithin b.now rows.now turn }
    ensures { IsTrue result ↔ IsBelow a.now b.now rows.now turn }
{
    a.rows_at(rows, turn).high < b.rows_at(rows, turn).low
}

/// Whether both bands keep a common row at a turn.
fn meet_at(a: &Band, b: &Band, rows: &Run, turn: u64) -> bool
    requires a { IsWithin a.now rows.now turn }
    requires b { IsWithin b.now rows.now turn }
    ensures { IsTrue result ↔ KeepBoth a.now b.now rows.now turn }
{
    let of_a = a.rows_at(rows, turn);
    let of_b = b.rows_at(rows, turn);
    rows.has_between(of_a.low.max(of_b.low), of_a.high.min(of_b.high))
}
