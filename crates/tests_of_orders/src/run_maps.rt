//! Maps from places to small numbers, against lists that were written out by hand.
use dd_spans::RunMap;
use std::alloc::{AllocError, Global};
use std::process::Abort;
use std::test::Fail;

/// Runs that are set one after the other: the first place, the count, the value.
type Sets = &'static [(u32, u32, u32)];

/// How many places, runs that are set where all are 0, and the values then.
const ROWS: [(u32, Sets, &[u32]); 12] = [
    (6, &[(1, 3, 5)], &[0, 5, 5, 5, 0, 0]),
    (6, &[], &[0, 0, 0, 0, 0, 0]),
    (0, &[], &[]),
    (0, &[(0, 0, 7)], &[]),
    (3, &[(0, 3, 7)], &[7, 7, 7]),
    (3, &[(1, 0, 7)], &[0, 0, 0]),
    (3, &[(3, 0, 7)], &[0, 0, 0]),
    (3, &[(0, 1, u32::MAX)], &[u32::MAX, 0, 0]),
    (3, &[(2, 1, u32::MAX)], &[0, 0, u32::MAX]),
    (6, &[(1, 3, 5), (2, 1, 0), (3, 3, 8)], &[0, 5, 0, 8, 8, 8]),
    (6, &[(1, 3, 5), (2, 1, 0), (2, 1, 5)], &[0, 5, 5, 5, 0, 0]),
    (6, &[(1, 3, 5), (0, 6, 0)], &[0, 0, 0, 0, 0, 0]),
];

/// How many places, a run that is set where all are 0, and for each place the first above it with another value.
const ENDS: [(u32, Sets, &[u64]); 7] = [
    (6, &[(1, 3, 5)], &[1, 4, 4, 4, 6, 6]),
    (6, &[(1, 3, 0)], &[6, 6, 6, 6, 6, 6]),
    (6, &[(3, 3, 5)], &[3, 3, 3, 6, 6, 6]),
    (5, &[(0, 1, 5)], &[1, 5, 5, 5, 5]),
    (3, &[(2, 1, 5)], &[2, 2, 3]),
    (2, &[(0, 2, 5)], &[2, 2]),
    (1, &[], &[1]),
];

#[test]
fn runs_are_set(rt: HostRuntime) -> Result<(), Fail> {
    for (len, sets, wanted) in &ROWS {
        let map = map_of(&rt, rt.alloc(), *len, sets)?;
        assert_eq!(rt; map.len(), u64::from(*len));
        for place in 0..map.len() {
            assert_eq!(rt;
                Some(&map.get(place)),
                wanted.get(place as usize),
                "{place} of {wanted:?}"
            );
        }
    }
    Ok(())
}

#[test]
fn values_end(rt: HostRuntime) -> Result<(), Fail> {
    for (len, sets, wanted) in &ENDS {
        let map = map_of(&rt, rt.alloc(), *len, sets)?;
        for place in 0..map.len() {
            assert_eq!(rt;
                Some(&map.same_until(place)),
                wanted.get(place as usize),
                "{place} of {wanted:?}"
            );
        }
    }
    Ok(())
}

/// A map of zeros in which runs are set.
fn map_of(rt: &impl Abort, alloc: Global, len: u32, sets: Sets) -> Result<RunMap, AllocError> {
    let mut map = RunMap::new(alloc, u64::from(len), 0)?;
    for (first, count, value) in sets {
        map.reserve(2)?;
        let (first, count) = (u64::from(*first), u64::from(*count));
        assert!(rt; first + count <= map.len());
        map.set_run(first, count, *value);
    }
    Ok(map)
}

/// How many places, runs that are set where all are 0, from which place on and below which places are asked for, and the value
/// there and the end of its run.
const RUNS: [(u32, Sets, (u64, u64), (u32, u64)); 7] = [
    (6, &[(1, 3, 5)], (1, 6), (5, 4)),
    (6, &[(1, 3, 5)], (1, 3), (5, 3)),
    (6, &[(1, 3, 5)], (2, 3), (5, 3)),
    (6, &[(1, 3, 5)], (0, 6), (0, 1)),
    (6, &[(1, 3, 5)], (4, 6), (0, 6)),
    (6, &[], (0, 1), (0, 1)),
    (1, &[(0, 1, 7)], (0, 1), (7, 1)),
];

#[test]
fn runs_end_where_less_is_asked(rt: HostRuntime) -> Result<(), Fail> {
    for (len, sets, (place, end), wanted) in &RUNS {
        let map = map_of(&rt, rt.alloc(), *len, sets)?;
        assert!(rt; *place < *end && *end <= map.len());
        assert_eq!(rt; map.run_at(*place, *end), *wanted, "{place} to {end}");
    }
    Ok(())
}

/// Runs that are set in two maps of six places, the place and the count that the first takes of the second, and its values then.
const COPIES: [(Sets, Sets, (u64, u64), [u32; 6]); 5] = [
    (&[], &[(1, 3, 5)], (0, 6), [0, 5, 5, 5, 0, 0]),
    (&[], &[(1, 3, 5)], (0, 2), [0, 5, 0, 0, 0, 0]),
    (&[(0, 6, 2)], &[(1, 3, 5)], (3, 2), [2, 2, 2, 5, 0, 2]),
    (&[(0, 6, 2)], &[(1, 3, 5)], (5, 1), [2, 2, 2, 2, 2, 0]),
    (&[(0, 6, 2)], &[(1, 3, 5)], (6, 0), [2, 2, 2, 2, 2, 2]),
];

#[test]
fn runs_are_copied(rt: HostRuntime) -> Result<(), Fail> {
    for (ours, theirs, (first, count), wanted) in &COPIES {
        let mut map = map_of(&rt, rt.alloc(), 6, ours)?;
        let other = map_of(&rt, rt.alloc(), 6, theirs)?;
        assert!(rt; *first <= 6 && *count <= 6 - *first && map.len() == 6 && other.len() == 6);
        map.reserve(2 * *count)?;
        map.copy_run(&other, *first, *count);
        for place in 0..map.len() {
            assert_eq!(rt;
                Some(&map.get(place)),
                wanted.get(place as usize),
                "{place} of {wanted:?}"
            );
        }
    }
    Ok(())
}
