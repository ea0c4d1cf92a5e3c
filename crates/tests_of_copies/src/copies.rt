//! Copies of blocks: what they hold at first, and what they take from each other.
ghost use Rattle.std.specs.Prelude.{◌≡◌, true};
ghost use Rattle.dd_blocks.specs.WellFormed.{IsWellFormed};

use crate::plans::{FOUR_BLOCKS, ONE_BLOCK, places_of, plan_of};
use dd_blocks::Plan;
use dd_stamps::{Stamped, blank, fresh_fill};
use std::alloc::Global;
use std::process::Abort;

/// The version of a place of which nothing is said.
pub(crate) const BLANK: u32 = 4294967295;

/// The copy has these versions, one for each place.
pub(crate) fn check_versions(rt: &impl Abort, copy: &Stamped<'_>, versions: &[u32]) {
    assert!(rt; copy.versions().len() == versions.len() as u64);
    for place in 0..versions.len() {
        assert_eq!(rt;
            copy.versions().get(place as u64),
            versions[place],
            "{place}"
        );
    }
}

/// The copy has one version in each place.
pub(crate) fn check_one_version(rt: &impl Abort, copy: &Stamped<'_>, version: u32) {
    for place in 0..copy.versions().len() {
        assert_eq!(rt; copy.versions().get(place), version, "{place}");
    }
}

// Each row: a block of 5 by 3 elements in blocks of 3 by 2, and its values.
#[test]
fn a_fresh_copy_has_the_fill_of_its_block(rt: HostRuntime) {
    let plan = plan_of(&rt, rt.alloc(), FOUR_BLOCKS);
    check_fill(&rt, rt.alloc(), &plan, 1, &[1, 2, 3, 6, 7, 8]);
    check_fill(&rt, rt.alloc(), &plan, 2, &[4, 5, 9, 10]);
    check_fill(&rt, rt.alloc(), &plan, 3, &[11, 12, 13]);
    check_fill(&rt, rt.alloc(), &plan, 4, &[14, 15]);
}

// A fresh copy of a block has these values, and version 0 everywhere.
fn check_fill(rt: &impl Abort, alloc: Global, plan: &Plan, block: u32, values: &[i64])
    requires { IsWellFormed plan.now }
{
    assert!(rt; block >= 1 && block as usize <= plan.blocks.as_slice().len());
    let copy = fresh_fill(alloc, plan, block).expect(rt, "memory");
    assert_eq!(rt; copy.block(), block);
    assert_eq!(rt; copy.values(), values);
    check_one_version(rt, &copy, 0);
}

// Places, and the values and versions of a blank copy that took these places of a fresh one.
#[test]
fn places_are_taken(rt: HostRuntime) {
    let plan = plan_of(&rt, rt.alloc(), ONE_BLOCK);
    check_taken(
        &rt,
        rt.alloc(),
        &plan,
        &[],
        &[0, 0, 0, 0],
        &[BLANK, BLANK, BLANK, BLANK],
    );
    check_taken(
        &rt,
        rt.alloc(),
        &plan,
        &[2],
        &[0, 0, 3, 0],
        &[BLANK, BLANK, 0, BLANK],
    );
    check_taken(
        &rt,
        rt.alloc(),
        &plan,
        &[3, 0],
        &[1, 0, 0, 4],
        &[0, BLANK, BLANK, 0],
    );
    check_taken(
        &rt,
        rt.alloc(),
        &plan,
        &[1, 2, 3],
        &[0, 2, 3, 4],
        &[BLANK, 0, 0, 0],
    );
    check_taken(
        &rt,
        rt.alloc(),
        &plan,
        &[0, 1, 2, 3],
        &[1, 2, 3, 4],
        &[0, 0, 0, 0],
    );
}

// A blank copy that took places of a fresh one has these values and versions.
fn check_taken(
    rt: &impl Abort,
    alloc: Global,
    plan: &Plan,
    places: &[u64],
    values: &[i64],
    versions: &[u32],
)
    requires { IsWellFormed plan.now }
{
    let copy = copy_that_takes(rt, alloc, plan, places);
    assert_eq!(rt; copy.values(), values);
    check_versions(rt, &copy, versions);
}

/// A blank copy of block 1 that took places of a fresh one.
pub(crate) fn copy_that_takes<'p>(
    rt: &impl Abort,
    alloc: Global,
    plan: &'p Plan,
    places: &[u64],
) -> Stamped<'p>
    requires { IsWellFormed plan.now }
    ensures { result.told.mark ≡ true }
{
    assert!(rt; !plan.blocks.as_slice().is_empty());
    let fresh = fresh_fill(alloc, plan, 1).expect(rt, "memory");
    let mut copy = blank(alloc, plan, 1).expect(rt, "memory");
    let taken = places_of(rt, alloc, places, copy.versions().len());
    assert!(rt; taken.len() < 9);
    copy.reserve(2 * taken.len()).expect(rt, "memory");
    copy.take_from(&fresh, &taken);
    copy
}
