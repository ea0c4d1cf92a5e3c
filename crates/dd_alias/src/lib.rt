//! Which views share an element, and which tasks must wait for which.
//!
//! ```text
//! let lower = view_of(1, shape, Range::All, Range::All, Part::Lower)?;
//! let upper = view_of(1, shape, Range::All, Range::All, Part::UnitUpper)?;
//! overlap(&lower, &upper)         // false: one has the diagonal, the other what is above it
//! ```
//!
//! [`overlap`] is true exactly where both views are of one array and their lists of positions share one.
//! [`conflict`] is true exactly where one of two tasks writes an element that the other reads or writes. Both take no
//! memory, and never list elements. [`deps`] gives each of some tasks the places of the earlier ones that it is in conflict
//! with: of a write, a read and a write of one element, in this order, the lists are empty, 1, and 1 and 2. All three want
//! one shape for all views of an array.
//!
//! # Cost
//! Views that are apart by their least and greatest rows or columns, and whole views in steps of 1 or -1, cost some
//! comparisons. All others cost some divisions, and parts that cross some more for each halving of their common columns: how,
//! and why no element has to be looked at, stands in `meeting`.
//!
//! [`deps`] doesn't ask of all pairs. An access has to be looked at only where it faces one of the task: where some place
//! of their array stands between the least and greatest rows and columns of both. So tasks on different elements cost a sort of
//! their accesses, and for each access as many steps as the square of the bits of their number. Where many face each other, as
//! where all use the same elements, the task goes through all earlier accesses, at some comparisons each.
//!
//! # Inside
//! `congruence` finds least solutions and divisors, `run` has numbers in steps and `shared` what two runs share; `place`
//! goes from a number of a span to its place and back; `columns` has the rows that a part keeps; `pattern` is a view
//! without its array, `line` the row on the diagonal, and `band` what a pattern keeps to it; `meeting` joins them, and
//! `conflicts` goes through the accesses of two tasks.
//!
//! `extent` is an access with its least and greatest rows and columns, which are `interval`s, and `extents` has those of
//! tasks; `frame` goes around several of them, `piece` cuts a list of them, and `step` says what may be passed over at once;
//! `index` finds those that face another one, `waits` goes through a list of them, and `dependencies` goes from task to task.
//!
//! Definitions other than those of `specs/Overlap.antt`, `specs/Shapes.antt` and `specs/Dependencies.antt` are cited by
//! private contracts alone; what a conflict is stands in dd_blocks.
#![tactic(auto)]

mod band;
mod columns;
mod conflicts;
mod congruence;
mod dependencies;
mod extent;
mod extents;
mod frame;
mod index;
mod interval;
mod line;
mod meeting;
mod pattern;
mod piece;
mod place;
mod run;
mod shared;
mod step;
mod waits;

pub use conflicts::conflict;
pub use dependencies::deps;
pub use meeting::overlap;
