//! When an entry is legal: a test for each of the eighteen events, and the one of an entry.
//!
//! The tests read [`Tables`](dd_tables::Tables) and take no memory. Each is true exactly where the record of the event in
//! `specs/Legal.antt` of dd_machine holds. Whether a block is pinned is asked of the tasks at work, one for each processor; a sum
//! over a space goes through its blocks.
#![tactic(auto)]

mod asks;
mod closing;
mod copying;
mod entries;
mod holding;
mod running;
mod spilling;

pub use copying::{may_copy, may_lend};
pub use entries::legal;
pub use holding::may_make;
pub use running::may_start;
pub use spilling::{may_call, may_pick};
