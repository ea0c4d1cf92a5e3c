//! What ranges list, at values from outside.
use dd_views::{Range, Span3, ViewFault, span};
use std::process::Abort;
use std::test::Fail;

/// First, step and count of what a range lists, or `None` where it is refused.
type Listed = Option<(u32, i64, u32)>;

/// A name, a length, and what all of it lists.
type AllRow = (&'static str, u32, Listed);

/// A name, a number, a length, and what the number lists.
type OneRow = (&'static str, i64, u32, Listed);

/// A name, first and last number of a run, a length, and what the run lists.
type RunRow = (&'static str, (i64, i64), u32, Listed);

/// A name, first number, step and last number, a length, and what the steps list.
type StepsRow = (&'static str, (i64, i64, i64), u32, Listed);

const LEAST: i64 = -9223372036854775808;

const GREATEST: i64 = 9223372036854775807;

const ALL: [AllRow; 4] = [
    ("all", 7, Some((1, 1, 7))),
    ("all of nothing", 0, Some((1, 1, 0))),
    ("all of one", 1, Some((1, 1, 1))),
    ("all of the most", 4294967295, Some((1, 1, 4294967295))),
];

const ONES: [OneRow; 10] = [
    ("the first", 1, 4, Some((1, 1, 1))),
    ("the last", 4, 4, Some((4, 1, 1))),
    ("one past the last", 5, 4, None),
    ("one before the first", 0, 4, None),
    ("below 0", -1, 4, None),
    ("one of nothing", 1, 0, None),
    ("the least number", LEAST, 4, None),
    ("the greatest number", GREATEST, 4, None),
    (
        "the last of the most",
        4294967295,
        4294967295,
        Some((4294967295, 1, 1)),
    ),
    ("past the most", 4294967296, 4294967295, None),
];

const RUNS: [RunRow; 11] = [
    ("a run down", (9, 3), 4, Some((1, 1, 0))),
    ("a run of all", (1, 4), 4, Some((1, 1, 4))),
    ("a run of one", (3, 3), 4, Some((3, 1, 1))),
    ("a run past the last", (2, 5), 4, None),
    ("a run from 0", (0, 2), 4, None),
    ("an empty run past the last", (5, 4), 4, Some((1, 1, 0))),
    ("an empty run below the first", (0, -7), 4, Some((1, 1, 0))),
    (
        "an empty run of ends",
        (GREATEST, LEAST),
        4,
        Some((1, 1, 0)),
    ),
    ("a run of ends", (LEAST, GREATEST), 4, None),
    ("a run from 1 to the greatest", (1, GREATEST), 4, None),
    ("a run from the least to 1", (LEAST, 1), 4, None),
];

const STEPS: [StepsRow; 39] = [
    ("steps down to the first", (4, -1, 1), 4, Some((4, -1, 4))),
    ("a step of 0", (1, 0, 1), 4, None),
    ("steps up to the last", (1, 3, 9), 9, Some((1, 3, 3))),
    (
        "a step that jumps past the end",
        (2, 5, 4),
        4,
        Some((2, 1, 1)),
    ),
    (
        "a step that jumps past the end behind two",
        (1, 4, 8),
        9,
        Some((1, 4, 2)),
    ),
    (
        "a last past the length that is never reached",
        (1, 2, 4),
        4,
        Some((1, 2, 2)),
    ),
    (
        "a last past the length, by jumps",
        (2, 2, 5),
        4,
        Some((2, 2, 2)),
    ),
    (
        "a last far past the length, by one jump",
        (2, 100, 101),
        4,
        Some((2, 1, 1)),
    ),
    ("a number past the length", (2, 3, 6), 4, None),
    ("steps down past the end", (9, -4, 2), 9, Some((9, -4, 2))),
    ("steps down below 1", (9, -4, 0), 9, Some((9, -4, 3))),
    ("steps down to below 1", (9, -4, 1), 9, Some((9, -4, 3))),
    ("a step down to 0", (8, -4, 0), 9, None),
    ("an empty step up", (4, 1, 3), 4, Some((1, 1, 0))),
    ("an empty step down", (3, -1, 4), 4, Some((1, 1, 0))),
    (
        "an empty step down outside",
        (90, -7, 91),
        4,
        Some((1, 1, 0)),
    ),
    ("an empty large step", (4, 100, 3), 4, Some((1, 1, 0))),
    ("a step of 0 in an empty range", (4, 0, 1), 4, None),
    ("a step of 0 at one number", (2, 0, 2), 4, None),
    ("a step of 0 outside", (9, 0, 3), 4, None),
    ("a step of 0 in no numbers", (1, 0, 0), 0, None),
    ("one number by a step down", (3, -1, 3), 4, Some((3, 1, 1))),
    ("one number by a large step", (3, 9, 3), 4, Some((3, 1, 1))),
    (
        "the least step at one number",
        (3, LEAST, 3),
        4,
        Some((3, 1, 1)),
    ),
    ("the least step down", (3, LEAST, 1), 4, Some((3, 1, 1))),
    (
        "the least step down to the least",
        (3, LEAST, LEAST),
        4,
        None,
    ),
    ("the least step from 1", (1, LEAST, LEAST), 4, None),
    ("the least step, nothing", (3, LEAST, 4), 4, Some((1, 1, 0))),
    (
        "the least step between the ends",
        (GREATEST, LEAST, LEAST),
        4,
        None,
    ),
    (
        "the greatest step",
        (1, GREATEST, GREATEST),
        4,
        Some((1, 1, 1)),
    ),
    (
        "the greatest step, out",
        (2, GREATEST, GREATEST),
        4,
        Some((2, 1, 1)),
    ),
    (
        "the greatest step from the least",
        (LEAST, GREATEST, GREATEST),
        4,
        None,
    ),
    (
        "the greatest step, nothing",
        (2, GREATEST, 1),
        4,
        Some((1, 1, 0)),
    ),
    ("steps between the ends", (LEAST, 1, GREATEST), 4, None),
    (
        "steps down between the ends",
        (GREATEST, -1, LEAST),
        4,
        None,
    ),
    ("down from 4 to the least", (4, -1, LEAST), 4, None),
    (
        "by 2 from 1 to the greatest",
        (1, 2, GREATEST),
        4294967295,
        None,
    ),
    (
        "half of the most",
        (1, 2, 4294967295),
        4294967295,
        Some((1, 2, 2147483648)),
    ),
    (
        "half of the most, down",
        (4294967295, -2, 1),
        4294967295,
        Some((4294967295, -2, 2147483648)),
    ),
];

#[test]
fn all_numbers_are_listed(rt: HostRuntime) -> Result<(), Fail> {
    for (name, length, wanted) in ALL {
        check_span(&rt, name, Range::All, length, wanted);
    }
    Ok(())
}

#[test]
fn one_number_is_listed(rt: HostRuntime) -> Result<(), Fail> {
    for (name, number, length, wanted) in ONES {
        check_span(&rt, name, Range::One(number), length, wanted);
    }
    Ok(())
}

#[test]
fn runs_list(rt: HostRuntime) -> Result<(), Fail> {
    for (name, (first, last), length, wanted) in RUNS {
        check_span(&rt, name, Range::Run { first, last }, length, wanted);
    }
    Ok(())
}

#[test]
fn steps_list(rt: HostRuntime) -> Result<(), Fail> {
    for (name, (first, step, last), length, wanted) in STEPS {
        check_span(
            &rt,
            name,
            Range::Steps { first, step, last },
            length,
            wanted,
        );
    }
    Ok(())
}

fn check_span(rt: &impl Abort, name: &str, range: Range, length: u32, wanted: Listed) {
    let wanted = match wanted {
        Some((first, step, count)) => Ok(Span3 { first, step, count }),
        None => Err(ViewFault::BadRange),
    };
    assert_eq!(rt; span(range, length), wanted, "{name}");
}
