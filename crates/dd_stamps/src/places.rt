//! Cells that are taken from one copy into another.
ghost use Rattle.std.specs.Prelude.{◌≡◌, ◌+◌, ◌*◌, ◌<◌, ◌≤◌, pos, length};
ghost use Rattle.std.specs.List.{All};
ghost use Rattle.dd_stamps.specs.Taken.{HasRun, HasTaken};

use dd_spans::{RunMap, Runs};

/// The versions and the values of some places become those of another copy, one run of places after the other.
pub(crate) fn take_places(
    versions: &mut RunMap,
    values: &mut [i64],
    other_versions: &RunMap,
    other_values: &[i64],
    places: &Runs,
)
    requires versions { length other_versions.now.list ≡ length versions.old.list }
    requires values { length other_values.now ≡ length values.old }
    requires same { length values.old ≡ length versions.old.list }
    requires places { All (λ p. p < length versions.old.list) places.now.list }
    requires spare { 2 * length places.now.list ≤ versions.old.spare }
    ensures versions { HasTaken 0 places.now.list versions.old.list other_versions.now.list versions.new.list }
    ensures values { HasTaken (pos 0) places.now.list values.old other_values.now values.new }
    ensures spare { versions.old.spare ≤ versions.new.spare + 2 * length places.now.list }
{
    let mut left = places.cursor();
    while let Some((first, count)) = left.next_run() {
        take_versions(versions, other_versions, first, count);
        take_values(
            values,
            other_values,
            first as usize,
            (first + count) as usize,
        );
    }
}

/// The versions of `count` places from `first` on become those of the other map.
fn take_versions(ours: &mut RunMap, theirs: &RunMap, first: u64, count: u64)
    requires count { length theirs.now.list ≡ length ours.old.list }
    requires within { first + count ≤ length ours.old.list }
    requires spare { 2 * count ≤ ours.old.spare }
    ensures taken { HasRun 0 first (first + count) ours.old.list theirs.now.list ours.new.list }
    ensures spare { ours.old.spare ≤ ours.new.spare + 2 * count }
{
    // A place on its own is set: the call that copies a run takes longer than the copy.
    if count == 1 {
        ours.set(first, theirs.get(first));
    } else {
        ours.copy_run(theirs, first, count);
    }
}

/// The values from `first` on up to `end` become those of the other list.
fn take_values(ours: &mut [i64], theirs: &[i64], first: usize, end: usize)
    requires order { first ≤ end }
    requires count { length theirs.now ≡ length ours.old }
    requires within { end ≤ length ours.old }
    ensures { HasRun (pos 0) first end ours.old theirs.now ours.new }
{
    // As for versions.
    if end - first == 1 {
        ours[first] = theirs[first];
    } else {
        ours[first..end].copy_from_slice(&theirs[first..end]);
    }
}
