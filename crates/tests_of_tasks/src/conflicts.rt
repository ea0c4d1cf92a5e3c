//! Conflicts at values from outside.
use crate::samples::{Access, sample};
use dd_alias::conflict;
use dd_kernels::Mode;
use std::test::Fail;

/// A name, the accesses of two tasks and whether these are in conflict.
type Row = (&'static str, &'static [Access], &'static [Access], bool);

const FIRST: (i64, i64, i64) = (1, 1, 1);

const ROWS: [Row; 13] = [
    (
        "two reads of one element",
        &[(1, FIRST, Mode::Read)],
        &[(1, FIRST, Mode::Read)],
        false,
    ),
    (
        "a write and a read",
        &[(1, FIRST, Mode::Write)],
        &[(1, FIRST, Mode::Read)],
        true,
    ),
    (
        "two writes",
        &[(1, FIRST, Mode::Write)],
        &[(1, FIRST, Mode::Write)],
        true,
    ),
    (
        "what is read and written, and a read",
        &[(1, FIRST, Mode::Both)],
        &[(1, FIRST, Mode::Read)],
        true,
    ),
    (
        "what is read and written, and a write",
        &[(1, FIRST, Mode::Both)],
        &[(1, FIRST, Mode::Write)],
        true,
    ),
    (
        "twice what is read and written",
        &[(1, FIRST, Mode::Both)],
        &[(1, FIRST, Mode::Both)],
        true,
    ),
    (
        "every third from 1 and every second from 2",
        &[(1, (1, 3, 7), Mode::Write)],
        &[(1, (2, 2, 8), Mode::Read)],
        true,
    ),
    (
        "the odd and the even",
        &[(1, (1, 2, 7), Mode::Write)],
        &[(1, (2, 2, 8), Mode::Write)],
        false,
    ),
    (
        "the same positions of two arrays",
        &[(1, FIRST, Mode::Write)],
        &[(2, FIRST, Mode::Write)],
        false,
    ),
    ("no access", &[], &[(1, FIRST, Mode::Write)], false),
    (
        "an empty view",
        &[(1, (1, 1, 0), Mode::Write)],
        &[(1, (1, 1, 16), Mode::Write)],
        false,
    ),
    (
        "the second access of both",
        &[(1, FIRST, Mode::Read), (2, FIRST, Mode::Write)],
        &[(1, FIRST, Mode::Read), (2, FIRST, Mode::Read)],
        true,
    ),
    (
        "reads of what the other reads, writes beside it",
        &[(1, FIRST, Mode::Read), (1, (2, 1, 2), Mode::Write)],
        &[(1, FIRST, Mode::Read), (1, (3, 1, 3), Mode::Write)],
        false,
    ),
];

#[test]
fn tasks_are_in_conflict(rt: HostRuntime) -> Result<(), Fail> {
    for row in &ROWS {
        let (name, one, other, wanted) = *row;
        let u = sample(rt.alloc(), one)?;
        let t = sample(rt.alloc(), other)?;
        assert_eq!(rt; conflict(&u, &t), wanted, "{name}");
        assert_eq!(rt; conflict(&t, &u), wanted, "{name}, the other way");
    }
    Ok(())
}
