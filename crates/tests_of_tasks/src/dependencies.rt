//! Dependencies at values from outside.
use crate::samples::{Access, samples};
use dd_alias::deps;
use dd_kernels::Mode;
use std::test::Fail;

/// A name, the accesses of the tasks and the dependencies of each.
type Row = (
    &'static str,
    &'static [&'static [Access]],
    &'static [&'static [u32]],
);

const FIRST: (i64, i64, i64) = (1, 1, 1);

const ROWS: [Row; 11] = [
    ("no tasks", &[], &[]),
    (
        "a write, a read and a write",
        &[
            &[(1, FIRST, Mode::Write)],
            &[(1, FIRST, Mode::Read)],
            &[(1, FIRST, Mode::Write)],
        ],
        &[&[], &[1], &[1, 2]],
    ),
    (
        "two reads",
        &[&[(1, FIRST, Mode::Read)], &[(1, FIRST, Mode::Read)]],
        &[&[], &[]],
    ),
    (
        "a read, then a write",
        &[&[(1, FIRST, Mode::Read)], &[(1, FIRST, Mode::Write)]],
        &[&[], &[1]],
    ),
    (
        "what is read and written between reads",
        &[
            &[(1, FIRST, Mode::Read)],
            &[(1, FIRST, Mode::Both)],
            &[(1, FIRST, Mode::Read)],
            &[(1, FIRST, Mode::Both)],
        ],
        &[&[], &[1], &[2], &[1, 2, 3]],
    ),
    (
        "a task without accesses",
        &[&[(1, FIRST, Mode::Write)], &[], &[(1, FIRST, Mode::Read)]],
        &[&[], &[], &[1]],
    ),
    (
        "an empty view",
        &[
            &[(1, (1, 1, 0), Mode::Write)],
            &[(1, (1, 1, 16), Mode::Write)],
        ],
        &[&[], &[]],
    ),
    (
        "the same positions of two arrays",
        &[&[(1, FIRST, Mode::Write)], &[(2, FIRST, Mode::Write)]],
        &[&[], &[]],
    ),
    (
        "steps",
        &[
            &[(1, (1, 3, 7), Mode::Write)],
            &[(1, (2, 2, 8), Mode::Read)],
            &[(1, (1, 2, 7), Mode::Write)],
        ],
        &[&[], &[1], &[1]],
    ),
    (
        "three arrays",
        &[
            &[(1, FIRST, Mode::Write), (2, FIRST, Mode::Read)],
            &[(2, FIRST, Mode::Write)],
            &[(1, FIRST, Mode::Read), (3, FIRST, Mode::Read)],
            &[(3, FIRST, Mode::Write), (1, (2, 1, 2), Mode::Write)],
        ],
        &[&[], &[1], &[1], &[3]],
    ),
    (
        "a chain of ten",
        &[
            &[(1, (1, 1, 1), Mode::Write)],
            &[(1, (1, 1, 1), Mode::Read), (1, (2, 1, 2), Mode::Write)],
            &[(1, (2, 1, 2), Mode::Read), (1, (3, 1, 3), Mode::Write)],
            &[(1, (3, 1, 3), Mode::Read), (1, (4, 1, 4), Mode::Write)],
            &[(1, (4, 1, 4), Mode::Read), (1, (5, 1, 5), Mode::Write)],
            &[(1, (5, 1, 5), Mode::Read), (1, (6, 1, 6), Mode::Write)],
            &[(1, (6, 1, 6), Mode::Read), (1, (7, 1, 7), Mode::Write)],
            &[(1, (7, 1, 7), Mode::Read), (1, (8, 1, 8), Mode::Write)],
            &[(1, (8, 1, 8), Mode::Read), (1, (9, 1, 9), Mode::Write)],
            &[(1, (9, 1, 9), Mode::Read), (1, (10, 1, 10), Mode::Write)],
        ],
        &[&[], &[1], &[2], &[3], &[4], &[5], &[6], &[7], &[8], &[9]],
    ),
];

#[test]
fn tasks_wait_for_earlier_ones(rt: HostRuntime) -> Result<(), Fail> {
    for row in &ROWS {
        let (name, tasks, wanted) = *row;
        let rows = samples(rt.alloc(), tasks)?;
        assert!(rt; rows.len() < 100);
        let found = deps(rt.alloc(), &rows)?;
        assert_eq!(rt; found.len(), wanted.len(), "{name}");
        for (list, places) in found.iter().zip(wanted) {
            assert_eq!(rt; list.as_slice(), *places, "{name}");
        }
    }
    Ok(())
}
