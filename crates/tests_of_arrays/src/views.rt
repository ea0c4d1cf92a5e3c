//! Views at values from outside.
ghost use Rattle.dd_views.specs.Views.{IsView};

use crate::small_views::{PARTS, Size, small_view};
use dd_views::{Part, Range, Shape, View, ViewFault, view_of};
use std::process::Abort;
use std::test::Fail;

/// The size of a view and its positions.
type Listed = (Size, &'static [u64]);

/// A name, the size of an array, the rows, the columns and the part of a view, and what it lists.
type ViewRow = (&'static str, Size, Range, Range, Part, Listed);

/// A name, the size of an array, the rows and the columns of a square view, and what each part of `PARTS` lists.
type SquareRow = (&'static str, Size, Range, Range, [Listed; 6]);

/// A name, the size of an array, the rows, the columns and the part of a view, and why it is refused.
type FaultRow = (&'static str, Size, Range, Range, Part, ViewFault);

const SQUARES: [SquareRow; 4] = [
    (
        "no rows and columns",
        (3, 3),
        Range::Run { first: 1, last: 0 },
        Range::Run { first: 3, last: 2 },
        [
            ((0, 0), &[]),
            ((0, 1), &[]),
            ((0, 1), &[]),
            ((0, 1), &[]),
            ((0, 1), &[]),
            ((0, 1), &[]),
        ],
    ),
    (
        "one element",
        (3, 4),
        Range::One(2),
        Range::One(4),
        [
            ((1, 1), &[10]),
            ((1, 1), &[10]),
            ((1, 1), &[10]),
            ((0, 1), &[]),
            ((0, 1), &[]),
            ((1, 1), &[10]),
        ],
    ),
    (
        "two by two in steps",
        (5, 4),
        Range::Steps {
            first: 1,
            step: 3,
            last: 5,
        },
        Range::Steps {
            first: 4,
            step: -2,
            last: 1,
        },
        [
            ((2, 2), &[15, 18, 5, 8]),
            ((3, 1), &[15, 18, 8]),
            ((3, 1), &[15, 5, 8]),
            ((1, 1), &[18]),
            ((1, 1), &[5]),
            ((2, 1), &[15, 8]),
        ],
    ),
    (
        "five by five in steps",
        (11, 9),
        Range::Steps {
            first: 2,
            step: 2,
            last: 11,
        },
        Range::Steps {
            first: 9,
            step: -2,
            last: 1,
        },
        [
            (
                (5, 5),
                &[
                    89, 91, 93, 95, 97, 67, 69, 71, 73, 75, 45, 47, 49, 51, 53, 23, 25, 27, 29, 31,
                    1, 3, 5, 7, 9,
                ],
            ),
            (
                (15, 1),
                &[89, 91, 93, 95, 97, 69, 71, 73, 75, 49, 51, 53, 29, 31, 9],
            ),
            (
                (15, 1),
                &[89, 67, 69, 45, 47, 49, 23, 25, 27, 29, 1, 3, 5, 7, 9],
            ),
            ((10, 1), &[91, 93, 95, 97, 71, 73, 75, 51, 53, 31]),
            ((10, 1), &[67, 45, 47, 23, 25, 27, 1, 3, 5, 7]),
            ((5, 1), &[89, 69, 49, 29, 9]),
        ],
    ),
];

const VIEWS: [ViewRow; 7] = [
    (
        "the lower part of a whole array",
        (3, 3),
        Range::All,
        Range::All,
        Part::Lower,
        ((6, 1), &[0, 1, 2, 4, 5, 8]),
    ),
    (
        "the upper part of a view",
        (3, 3),
        Range::Run { first: 2, last: 3 },
        Range::Run { first: 2, last: 3 },
        Part::Upper,
        ((3, 1), &[4, 7, 8]),
    ),
    (
        "a whole array",
        (2, 3),
        Range::All,
        Range::All,
        Part::All,
        ((2, 3), &[0, 1, 2, 3, 4, 5]),
    ),
    (
        "columns from the last",
        (2, 3),
        Range::All,
        Range::Steps {
            first: 3,
            step: -1,
            last: 1,
        },
        Part::All,
        ((2, 3), &[4, 5, 2, 3, 0, 1]),
    ),
    (
        "no rows of some columns",
        (2, 3),
        Range::Run { first: 2, last: 1 },
        Range::All,
        Part::All,
        ((0, 3), &[]),
    ),
    (
        "no columns",
        (2, 3),
        Range::All,
        Range::Steps {
            first: 1,
            step: -1,
            last: 2,
        },
        Part::All,
        ((2, 0), &[]),
    ),
    (
        "an array without rows",
        (0, 4),
        Range::Run { first: 1, last: 0 },
        Range::All,
        Part::All,
        ((0, 4), &[]),
    ),
];

const FAULTS: [FaultRow; 12] = [
    (
        "bad rows",
        (3, 3),
        Range::Run { first: 1, last: 5 },
        Range::All,
        Part::All,
        ViewFault::BadRange,
    ),
    (
        "bad columns",
        (3, 3),
        Range::All,
        Range::One(4),
        Part::All,
        ViewFault::BadRange,
    ),
    (
        "bad rows before not square",
        (3, 3),
        Range::One(0),
        Range::All,
        Part::Lower,
        ViewFault::BadRange,
    ),
    (
        "bad columns before not square",
        (3, 3),
        Range::One(1),
        Range::Run { first: 0, last: 1 },
        Part::Diag,
        ViewFault::BadRange,
    ),
    (
        "a step of 0 in the columns",
        (3, 3),
        Range::All,
        Range::Steps {
            first: 3,
            step: 0,
            last: 1,
        },
        Part::All,
        ViewFault::BadRange,
    ),
    (
        "2 by 3, Lower",
        (2, 3),
        Range::All,
        Range::All,
        Part::Lower,
        ViewFault::NotSquare,
    ),
    (
        "2 by 3, Upper",
        (2, 3),
        Range::All,
        Range::All,
        Part::Upper,
        ViewFault::NotSquare,
    ),
    (
        "2 by 3, UnitLower",
        (2, 3),
        Range::All,
        Range::All,
        Part::UnitLower,
        ViewFault::NotSquare,
    ),
    (
        "2 by 3, UnitUpper",
        (2, 3),
        Range::All,
        Range::All,
        Part::UnitUpper,
        ViewFault::NotSquare,
    ),
    (
        "2 by 3, Diag",
        (2, 3),
        Range::All,
        Range::All,
        Part::Diag,
        ViewFault::NotSquare,
    ),
    (
        "no rows, one column",
        (3, 3),
        Range::Run { first: 2, last: 1 },
        Range::One(3),
        Part::Upper,
        ViewFault::NotSquare,
    ),
    (
        "a square array, other ranges",
        (4, 4),
        Range::Steps {
            first: 1,
            step: 2,
            last: 4,
        },
        Range::All,
        Part::Lower,
        ViewFault::NotSquare,
    ),
];

#[test]
fn parts_of_squares(rt: HostRuntime) -> Result<(), Fail> {
    for row in &SQUARES {
        check_square(&rt, row);
    }
    Ok(())
}

#[test]
fn views_list(rt: HostRuntime) -> Result<(), Fail> {
    for row in &VIEWS {
        check_view(&rt, row);
    }
    Ok(())
}

#[test]
fn views_are_refused(rt: HostRuntime) -> Result<(), Fail> {
    for (name, size, rows, cols, part, fault) in FAULTS {
        assert!(rt; size.0 < 100 && size.1 < 100);
        let shape = Shape {
            rows: size.0,
            cols: size.1,
        };
        assert_eq!(rt; view_of(1, shape, rows, cols, part), Err(fault), "{name}");
    }
    Ok(())
}

fn check_square(rt: &impl Abort, row: &SquareRow) {
    let (name, size, rows, cols, listed) = *row;
    for (part, wanted) in PARTS.iter().zip(&listed) {
        check_view(rt, &(name, size, rows, cols, *part, *wanted));
    }
}

fn check_view(rt: &impl Abort, row: &ViewRow) {
    let (name, size, rows, cols, part, wanted) = *row;
    match small_view(1, size, rows, cols, part) {
        Some(view) => {
            check_shape(rt, name, &view, wanted.0);
            check_positions(rt, name, &view, wanted.1);
        }
        None => assert!(rt; false, "{name}"),
    }
}

fn check_shape(rt: &impl Abort, name: &str, view: &View, wanted: Size)
    requires { IsView view.now }
{
    assert!(rt; view.len() < 1 << 32, "{name}");
    let shape = view.shape();
    assert_eq!(rt; (shape.rows, shape.cols), wanted, "{name} {:?}", view.part);
}

fn check_positions(rt: &impl Abort, name: &str, view: &View, positions: &[u64])
    requires { IsView view.now }
{
    assert_eq!(rt;
        view.len(),
        positions.len() as u64,
        "{name} {:?}",
        view.part
    );
    for (i, position) in positions.iter().enumerate() {
        assert_eq!(rt; view.at(i as u64), *position, "{name} {:?}", view.part);
    }
    for position in 0..110 {
        assert_eq!(rt;
            view.has(position),
            positions.contains(&position),
            "{name} {:?} {position}",
            view.part
        );
    }
}
