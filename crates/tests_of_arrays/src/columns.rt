//! The columns of views, one after the other, are their positions.
ghost use Rattle.dd_views.specs.Views.{IsView};

use crate::small_views::{PARTS, small_view};
use dd_views::{Column, Part, Range, View};
use std::process::Abort;
use std::test::Fail;

/// A name, how many rows and columns an array has, and the rows and the columns of a view of it.
type Row = (&'static str, u32, u32, Range, Range);

/// A name, and the rows and the columns of a square view of an array of 17 rows and 13 columns.
type SquareRow = (&'static str, Range, Range);

const SQUARES: [SquareRow; 10] = [
    (
        "none",
        Range::Run { first: 5, last: 4 },
        Range::Run { first: 2, last: 1 },
    ),
    ("one", Range::One(17), Range::One(13)),
    (
        "two in steps of 1",
        Range::Run { first: 4, last: 5 },
        Range::Run { first: 9, last: 10 },
    ),
    (
        "two in steps of 2 and -1",
        Range::Steps {
            first: 7,
            step: 2,
            last: 10,
        },
        Range::Steps {
            first: 3,
            step: -1,
            last: 2,
        },
    ),
    (
        "two in steps of -1 and -3",
        Range::Steps {
            first: 2,
            step: -1,
            last: 1,
        },
        Range::Steps {
            first: 4,
            step: -3,
            last: 1,
        },
    ),
    (
        "two in steps of -3 and 2",
        Range::Steps {
            first: 17,
            step: -3,
            last: 12,
        },
        Range::Steps {
            first: 11,
            step: 2,
            last: 13,
        },
    ),
    (
        "five in steps of 1",
        Range::Run {
            first: 13,
            last: 17,
        },
        Range::Run { first: 1, last: 5 },
    ),
    (
        "five in steps of 2 and -1",
        Range::Steps {
            first: 1,
            step: 2,
            last: 10,
        },
        Range::Steps {
            first: 13,
            step: -1,
            last: 9,
        },
    ),
    (
        "five in steps of -1 and 2",
        Range::Steps {
            first: 5,
            step: -1,
            last: 1,
        },
        Range::Steps {
            first: 5,
            step: 2,
            last: 13,
        },
    ),
    (
        "five in steps of -3",
        Range::Steps {
            first: 17,
            step: -3,
            last: 3,
        },
        Range::Steps {
            first: 13,
            step: -3,
            last: 1,
        },
    ),
];

const RECTANGLES: [Row; 7] = [
    ("a whole array", 2, 3, Range::All, Range::All),
    ("a row", 4, 5, Range::One(3), Range::All),
    ("a column", 4, 5, Range::All, Range::One(5)),
    (
        "steps",
        9,
        8,
        Range::Steps {
            first: 9,
            step: -3,
            last: 2,
        },
        Range::Steps {
            first: 1,
            step: 2,
            last: 8,
        },
    ),
    (
        "columns without rows",
        2,
        3,
        Range::Run { first: 2, last: 1 },
        Range::All,
    ),
    (
        "rows without columns",
        2,
        3,
        Range::All,
        Range::Run { first: 2, last: 1 },
    ),
    ("an array without rows", 0, 4, Range::All, Range::All),
];

#[test]
fn columns_of_squares(rt: HostRuntime) -> Result<(), Fail> {
    for (name, rows, cols) in SQUARES {
        for part in PARTS {
            check_view(&rt, &(name, 17, 13, rows, cols), part);
        }
    }
    Ok(())
}

#[test]
fn columns_of_rectangles(rt: HostRuntime) -> Result<(), Fail> {
    for row in &RECTANGLES {
        check_view(&rt, row, Part::All);
    }
    Ok(())
}

fn check_view(rt: &impl Abort, row: &Row, part: Part) {
    let (name, height, width, rows, cols) = *row;
    match small_view(1, (height, width), rows, cols, part) {
        Some(view) => check_columns(rt, name, &view),
        None => assert!(rt; false, "{name}"),
    }
}

fn check_columns(rt: &impl Abort, name: &str, view: &View)
    requires { IsView view.now }
{
    let mut i = 0;
    for j in 0..view.cols.count {
        i = check_column(rt, name, view, &view.column(j), i);
    }
    assert_eq!(rt; i, view.len(), "{name} {:?}", view.part);
}

/// The place in the view behind a column whose first element has the place `from`.
fn check_column(rt: &impl Abort, name: &str, view: &View, column: &Column, from: u64) -> u64
    requires { IsView view.now }
{
    let mut i = from;
    let mut position = column.first;
    for _ in 0..column.count {
        assert!(rt; i < view.len(), "{name} {:?}", view.part);
        assert_eq!(rt; position, view.at(i), "{name} {:?}", view.part);
        i += 1;
        position = position.wrapping_add_signed(column.step);
    }
    i
}
