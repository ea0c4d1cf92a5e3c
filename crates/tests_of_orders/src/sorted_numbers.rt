//! Sorted numbers, against lists that were written out by hand.
ghost use Rattle.std.specs.Prelude.{ℕ, ◌+◌, ◌-◌, ◌^◌, ◌<◌, ◌↔◌, IsTrue};
ghost use Rattle.std.specs.List.{All};

use dd_spans::Runs;
use std::alloc::{AllocError, Global};
use std::process::Abort;
use std::test::Fail;

/// The largest number that can be there.
const LAST: u64 = u64::MAX - 1;

/// Two lists; the numbers in both, in the first alone, and in either.
type Row = [&'static [u64]; 5];

const ROWS: [Row; 12] = [
    [
        &[7, 1, 2, 3],
        &[2, 3, 4, 7],
        &[2, 3, 7],
        &[1],
        &[1, 2, 3, 4, 7],
    ],
    [&[], &[], &[], &[], &[]],
    [&[], &[3], &[], &[], &[3]],
    [&[3], &[], &[], &[3], &[3]],
    [&[4, 5], &[5, 4], &[4, 5], &[], &[4, 5]],
    [&[5, 5, 5], &[6, 5, 5], &[5], &[], &[5, 6]],
    [&[0, 2, 4], &[5, 3, 1], &[], &[0, 2, 4], &[0, 1, 2, 3, 4, 5]],
    [&[9, 8, 9], &[11, 0], &[], &[8, 9], &[0, 8, 9, 11]],
    [
        &[6, 5, 4, 3, 2, 1],
        &[4, 9, 2],
        &[2, 4],
        &[1, 3, 5, 6],
        &[1, 2, 3, 4, 5, 6, 9],
    ],
    [&[2, 9], &[8, 1, 2, 3, 4], &[2], &[9], &[1, 2, 3, 4, 8, 9]],
    [&[LAST, 0], &[LAST], &[LAST], &[0], &[0, LAST]],
    [
        &[LAST - 1, LAST, LAST],
        &[3, LAST - 1],
        &[LAST - 1],
        &[LAST],
        &[3, LAST - 1, LAST],
    ],
];

/// A way to merge two lists.
#[derive(Clone, Copy)]
enum Merge {
    Meet,
    Minus,
    Union,
}

/// A list, a number, and the first run from it on.
type RunRow = (&'static [u64], u64, Option<(u64, u64)>);

const RUN_ROWS: [RunRow; 18] = [
    (&[7, 1, 2, 3], 0, Some((1, 3))),
    (&[7, 1, 2, 3], 1, Some((1, 3))),
    (&[7, 1, 2, 3], 2, Some((2, 2))),
    (&[7, 1, 2, 3], 3, Some((3, 1))),
    (&[7, 1, 2, 3], 4, Some((7, 1))),
    (&[7, 1, 2, 3], 7, Some((7, 1))),
    (&[7, 1, 2, 3], 8, None),
    (&[7, 1, 2, 3], u64::MAX, None),
    (&[], 0, None),
    (&[], u64::MAX, None),
    (&[0, 2, 3], 0, Some((0, 1))),
    (&[0, 2, 3], 1, Some((2, 2))),
    (&[9, 8, 7, 6, 5], 6, Some((6, 4))),
    (&[4, 4, 4], 0, Some((4, 1))),
    (&[LAST], 0, Some((LAST, 1))),
    (&[LAST], u64::MAX, None),
    (&[LAST, LAST - 1], 5, Some((LAST - 1, 2))),
    (&[LAST, LAST - 1], LAST, Some((LAST, 1))),
];

#[test]
fn lists_are_met_and_joined(rt: HostRuntime) -> Result<(), Fail> {
    for [first, second, both, alone, either] in &ROWS {
        check_merged(&rt, rt.alloc(), Merge::Meet, first, second, both)?;
        check_merged(&rt, rt.alloc(), Merge::Minus, first, second, alone)?;
        check_merged(&rt, rt.alloc(), Merge::Union, first, second, either)?;
    }
    Ok(())
}

#[test]
fn runs_are_found(rt: HostRuntime) -> Result<(), Fail> {
    for (list, from, run) in &RUN_ROWS {
        let runs = runs_of(&rt, rt.alloc(), list)?;
        assert_eq!(rt; runs.next_run(*from), *run, "{list:?} from {from}");
    }
    Ok(())
}

/// The numbers of a row.
fn runs_of(rt: &impl Abort, alloc: Global, list: &[u64]) -> Result<Runs, AllocError> {
    assert!(rt; are_small(list));
    Runs::of_list(alloc, list)
}

fn are_small(list: &[u64]) -> bool
    ensures { IsTrue result ↔ All (λ n. n < 2 ^ 64 - 1) list.now }
{
    list.iter().all(|n| *n < u64::MAX)
}

fn check_merged(
    rt: &impl Abort,
    alloc: Global,
    merge: Merge,
    first: &[u64],
    second: &[u64],
    wanted: &[u64],
) -> Result<(), AllocError> {
    let runs = runs_of(rt, alloc, first)?;
    let other = runs_of(rt, alloc, second)?;
    let merged = merged(&runs, &other, merge)?;
    check_numbers(rt, numbers_of(alloc, &merged)?.as_slice(), wanted);
    check_members(rt, &merged, wanted);
    Ok(())
}

fn merged(runs: &Runs, other: &Runs, merge: Merge) -> Result<Runs, AllocError> {
    match merge {
        Merge::Meet => runs.meet(other),
        Merge::Minus => runs.minus(other),
        Merge::Union => runs.union(other),
    }
}

fn check_numbers(rt: &impl Abort, numbers: &[u64], wanted: &[u64]) {
    assert_eq!(rt; numbers, wanted);
}

fn check_members(rt: &impl Abort, runs: &Runs, wanted: &[u64]) {
    assert_eq!(rt; runs.len(), wanted.len() as u64, "{wanted:?}");
    for n in 0..12 {
        assert_eq!(rt; runs.has(n), wanted.contains(&n), "{n} in {wanted:?}");
    }
}

/// The numbers, run after run.
fn numbers_of(alloc: Global, runs: &Runs) -> Result<Vec<u64>, AllocError> {
    let mut numbers = Vec::new(alloc);
    let mut from = 0;
    while let Some((first, count)) = runs.next_run(from) {
        push_run(&mut numbers, first, count)?;
        from = first + count;
    }
    Ok(numbers)
}

fn push_run(numbers: &mut Vec<u64>, first: u64, count: u64) -> Result<(), AllocError>
    requires { first + count < 2 ^ 64 }
{
    for n in first..first + count {
        numbers.push(n)?;
    }
    Ok(())
}

/// Numbers, and all their runs, one after the other.
const WALKS: [(&[u64], &[(u64, u64)]); 5] = [
    (&[], &[]),
    (&[4], &[(4, 1)]),
    (&[0, 1, 2], &[(0, 3)]),
    (&[7, 1, 2, 3], &[(1, 3), (7, 1)]),
    (&[0, 2, 4, 5, 7], &[(0, 1), (2, 1), (4, 2), (7, 1)]),
];

#[test]
fn a_cursor_goes_through_the_runs(rt: HostRuntime) -> Result<(), Fail> {
    for (list, wanted) in &WALKS {
        let runs = runs_of(&rt, rt.alloc(), list)?;
        let mut left = runs.cursor();
        for run in *wanted {
            assert_eq!(rt; left.next_run(), Some(*run), "{list:?}");
        }
        assert_eq!(rt; left.next_run(), None, "{list:?}");
    }
    Ok(())
}
