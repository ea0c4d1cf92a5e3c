//! Overlaps at values from outside, and against the lists of a family of small views.
ghost use Rattle.std.specs.Prelude.{◌<◌, IfSome};
ghost use Rattle.dd_views.specs.Views.{IsView};

use crate::small_views::{PARTS, Size, Steps, small_view, steps};
use dd_alias::overlap;
use dd_views::{Part, View};
use std::process::Abort;
use std::test::Fail;

/// The rows, the columns and the part of a view.
type Piece = (Steps, Steps, Part);

/// A name, the size of an array, two views of it and whether they overlap.
type Row = (&'static str, Size, Piece, Piece, bool);

const ROWS: [Row; 31] = [
    (
        "the lower triangle and what is above the diagonal",
        (3, 3),
        ((1, 1, 3), (1, 1, 3), Part::Lower),
        ((1, 1, 3), (1, 1, 3), Part::UnitUpper),
        false,
    ),
    (
        "the lower and the upper triangle",
        (3, 3),
        ((1, 1, 3), (1, 1, 3), Part::Lower),
        ((1, 1, 3), (1, 1, 3), Part::Upper),
        true,
    ),
    (
        "every third from 1 and every second from 2",
        (1, 8),
        ((1, 1, 1), (1, 3, 7), Part::All),
        ((1, 1, 1), (2, 2, 8), Part::All),
        true,
    ),
    (
        "the odd and the even",
        (1, 8),
        ((1, 1, 1), (1, 2, 7), Part::All),
        ((1, 1, 1), (2, 2, 8), Part::All),
        false,
    ),
    (
        "the odd down and every third down",
        (8, 1),
        ((7, -2, 1), (1, 1, 1), Part::All),
        ((8, -3, 2), (1, 1, 1), Part::All),
        true,
    ),
    (
        "one number in common, behind the end of one",
        (16, 1),
        ((1, 4, 9), (1, 1, 1), Part::All),
        ((13, -6, 1), (1, 1, 1), Part::All),
        true,
    ),
    (
        "numbers that meet only behind the end",
        (20, 1),
        ((1, 4, 9), (1, 1, 1), Part::All),
        ((3, 5, 8), (1, 1, 1), Part::All),
        false,
    ),
    (
        "rows apart",
        (4, 4),
        ((1, 1, 2), (1, 1, 4), Part::All),
        ((3, 1, 4), (1, 1, 4), Part::All),
        false,
    ),
    (
        "columns apart",
        (4, 4),
        ((1, 1, 4), (1, 1, 2), Part::All),
        ((1, 1, 4), (3, 1, 4), Part::All),
        false,
    ),
    (
        "nothing in the rows",
        (4, 4),
        ((2, 1, 1), (1, 1, 4), Part::All),
        ((1, 1, 4), (1, 1, 4), Part::All),
        false,
    ),
    (
        "a diagonal and the diagonal of a view one column on",
        (4, 4),
        ((1, 1, 4), (1, 1, 4), Part::Diag),
        ((1, 1, 3), (2, 1, 4), Part::Diag),
        false,
    ),
    (
        "a diagonal and one that crosses it",
        (3, 3),
        ((1, 1, 3), (1, 1, 3), Part::Diag),
        ((3, -1, 1), (1, 1, 3), Part::Diag),
        true,
    ),
    (
        "diagonals beside each other",
        (9, 8),
        ((1, 1, 8), (1, 1, 8), Part::Diag),
        ((2, 1, 9), (1, 1, 8), Part::Diag),
        false,
    ),
    (
        "the lower triangle and what is above the diagonal of a view two rows up, in steps of 2",
        (9, 9),
        ((3, 2, 9), (3, 2, 9), Part::Lower),
        ((1, 2, 7), (3, 2, 9), Part::UnitUpper),
        false,
    ),
    (
        "the lower triangle and what is above the diagonal of a view two rows down, in steps of 2",
        (9, 9),
        ((1, 2, 7), (1, 2, 7), Part::Lower),
        ((3, 2, 9), (1, 2, 7), Part::UnitUpper),
        true,
    ),
    (
        "the lower triangle and what is above the diagonal of a view two rows down, in steps of -2",
        (11, 11),
        ((9, -2, 3), (9, -2, 3), Part::Lower),
        ((11, -2, 5), (9, -2, 3), Part::UnitUpper),
        false,
    ),
    (
        "the lower triangle and what is above the diagonal of a view two rows up, in steps of -2",
        (11, 11),
        ((9, -2, 3), (9, -2, 3), Part::Lower),
        ((7, -2, 1), (9, -2, 3), Part::UnitUpper),
        true,
    ),
    (
        "diagonals that cross in an element",
        (9, 9),
        ((1, 1, 9), (1, 1, 9), Part::Diag),
        ((8, -1, 2), (2, 1, 8), Part::Diag),
        true,
    ),
    (
        "diagonals that cross between elements",
        (8, 8),
        ((1, 1, 8), (1, 1, 8), Part::Diag),
        ((8, -1, 1), (1, 1, 8), Part::Diag),
        false,
    ),
    (
        "an upper triangle and a block that has its corner on the diagonal",
        (9, 9),
        ((1, 1, 9), (1, 1, 9), Part::Upper),
        ((5, 1, 9), (1, 1, 5), Part::All),
        true,
    ),
    (
        "an upper triangle and a block below the diagonal",
        (9, 9),
        ((1, 1, 9), (1, 1, 9), Part::Upper),
        ((6, 1, 9), (1, 1, 5), Part::All),
        false,
    ),
    (
        "what is below a diagonal and what is above the next, in steps of 2",
        (11, 7),
        ((1, 2, 7), (1, 2, 7), Part::UnitLower),
        ((3, 2, 9), (1, 2, 7), Part::UnitUpper),
        false,
    ),
    (
        "what is below a diagonal and what is above the next but one, in steps of 2",
        (11, 7),
        ((1, 2, 7), (1, 2, 7), Part::UnitLower),
        ((5, 2, 11), (1, 2, 7), Part::UnitUpper),
        true,
    ),
    (
        "a diagonal and the even rows of the odd columns",
        (9, 9),
        ((1, 1, 9), (1, 1, 9), Part::Diag),
        ((2, 2, 8), (1, 2, 9), Part::All),
        false,
    ),
    (
        "a diagonal and every fourth row of the odd columns",
        (9, 9),
        ((1, 1, 9), (1, 1, 9), Part::Diag),
        ((1, 4, 9), (1, 2, 9), Part::All),
        true,
    ),
    (
        "a lower triangle in steps of 2 and what is above a diagonal a row down, in steps of 3",
        (13, 12),
        ((1, 2, 11), (1, 2, 11), Part::Lower),
        ((4, 3, 13), (3, 3, 12), Part::Upper),
        false,
    ),
    (
        "a lower triangle in steps of 2 and what is above a diagonal four rows down, in steps of 3",
        (16, 12),
        ((1, 2, 11), (1, 2, 11), Part::Lower),
        ((7, 3, 16), (3, 3, 12), Part::Upper),
        true,
    ),
    (
        "large steps that meet once",
        (60000, 1),
        ((1, 211, 60000), (1, 1, 1), Part::All),
        ((2, 223, 60000), (1, 1, 1), Part::All),
        true,
    ),
    (
        "large steps, one before they meet",
        (60000, 1),
        ((1, 211, 27430), (1, 1, 1), Part::All),
        ((2, 223, 60000), (1, 1, 1), Part::All),
        false,
    ),
    (
        "large steps, one way up and one down",
        (60000, 1),
        ((59999, -377, 1), (1, 1, 1), Part::All),
        ((5, 233, 60000), (1, 1, 1), Part::All),
        true,
    ),
    (
        "large steps down to one above where they meet",
        (60000, 1),
        ((59999, -377, 45674), (1, 1, 1), Part::All),
        ((5, 233, 60000), (1, 1, 1), Part::All),
        false,
    ),
];

const STEPS: [i64; 6] = [1, 2, 3, -1, -2, -3];

#[test]
fn views_overlap(rt: HostRuntime) -> Result<(), Fail> {
    for row in &ROWS {
        check_row(&rt, row);
    }
    Ok(())
}

fn check_row(rt: &impl Abort, row: &Row) {
    let (name, size, one, other, wanted) = *row;
    match (piece_view(1, size, one), piece_view(1, size, other)) {
        (Some(a), Some(b)) => {
            assert!(rt; a.height == b.height);
            assert_eq!(rt; overlap(&a, &b), wanted, "{name}");
            assert_eq!(rt; overlap(&b, &a), wanted, "{name}, the other way");
        }
        _ => assert!(rt; false, "{name}"),
    }
}

fn piece_view(array: u32, size: Size, piece: Piece) -> Option<View>
    ensures { IfSome result IsView }
{
    let (rows, cols, part) = piece;
    small_view(array, size, steps(rows), steps(cols), part)
}

/// Some views of a 4 by 5 array against some others: those that are had of all ranges and parts by going on by
/// a prime.
#[test]
fn overlaps_are_those_of_the_lists(rt: HostRuntime) -> Result<(), Fail> {
    for i in 0..300 {
        let mut judged = false;
        for k in 0..400 {
            judged = check_pair(&rt, i * 283, k * 211) || judged;
        }
        assert_eq!(rt; judged, piece_view(1, (4, 5), piece(i * 283)).is_some());
    }
    Ok(())
}

#[test]
fn views_of_two_arrays_do_not_overlap(rt: HostRuntime) -> Result<(), Fail> {
    let whole = ((1, 1, 4), (1, 1, 5), Part::All);
    match (piece_view(1, (4, 5), whole), piece_view(2, (4, 5), whole)) {
        (Some(a), Some(b)) => {
            assert!(rt; a.height == b.height);
            assert!(rt; overlap(&a, &a));
            assert!(rt; !overlap(&a, &b));
        }
        _ => assert!(rt; false),
    }
    Ok(())
}

/// Judges two views by their numbers, where both are views.
fn check_pair(rt: &impl Abort, one: u32, other: u32) -> bool {
    let (Some(a), Some(b)) = (
        piece_view(1, (4, 5), piece(one)),
        piece_view(1, (4, 5), piece(other)),
    ) else {
        return false;
    };
    assert!(rt; a.height == b.height);
    assert_eq!(rt; overlap(&a, &b), share(&a, &b), "{a:?} {b:?}");
    true
}

/// A view of a 4 by 5 array by a number: its part, its rows and its columns.
fn piece(number: u32) -> Piece {
    let part = PARTS[(number % 6) as usize];
    let rows = range(number / 6 % 96, 4);
    let cols = range(number / 576 % 150, 5);
    (rows, cols, part)
}

/// A range by a number: its first, its last and its step.
fn range(number: u32, length: u32) -> Steps
    requires { 0 < length }
{
    (
        i64::from(number % length) + 1,
        STEPS[(number / length / length % 6) as usize],
        i64::from(number / length % length) + 1,
    )
}

fn share(a: &View, b: &View) -> bool
    requires a { IsView a.now }
    requires b { IsView b.now }
{
    for position in 0..20 {
        if a.has(position) && b.has(position) {
            return true;
        }
    }
    false
}
