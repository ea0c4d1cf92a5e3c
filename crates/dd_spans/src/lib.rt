//! Sorted numbers, and maps from places to small numbers.
//!
//! ```text
//! let held = Runs::of_list(alloc, &[7, 1, 2, 3])?;
//! let missing = Runs::of_list(alloc, &[2, 3, 4, 7])?.minus(&held)?;
//!
//! let mut versions = RunMap::new(alloc, 6, 0)?;
//! versions.reserve(2)?;
//! versions.set_run(1, 3, 5);
//! ```
//!
//! `held` is 1, 2, 3, 7, and its runs are 1 to 3 and 7: `held.cursor().next_run()` is `Some((1, 3))`, then `Some((7, 1))`.
//! `missing` is 4. The map is 0, 5, 5, 5, 0, 0, and its run at 1 ends below 4, or earlier where less is asked: `run_at(1, 3)` is `(5, 3)`.
//!
//! [`Runs`] and a [`Cursor`] are seen as sorted numbers, a [`RunMap`] as the list of its values and its spare: how many runs
//! more it has memory for. A run that is set can split another in three, so it uses up to two of the spare and takes no
//! memory, and one that is copied up to two for each place: [`RunMap::reserve`] takes it beforehand.
//!
//! Sorting n numbers costs n log n. `meet`, `minus` and `union` go through both lists once, a cursor through one. `has` and the
//! start of `Runs::next_run` are binary searches. `set_run` and `copy_run` write each place of the run, and `run_at` reads each.
//!
//! Inside, [`Runs`] keeps a vector of its numbers, a [`RunMap`] one value a place. `sets` makes and merges sorted lists, `cut` has
//! where one is cut at a number, `run` how far its numbers follow each other; [`laws`] tells what holds of sorted numbers.
#![tactic(auto)]

mod cursor;
mod cut;
pub mod laws;
mod run;
mod run_map;
mod runs;
mod sets;

pub use cursor::Cursor;
pub use run_map::RunMap;
pub use runs::Runs;
