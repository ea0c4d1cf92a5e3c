//! Which event leads a Held task on: the first legal one of a fixed list.
//!
//! A task that is Held waits for its blocks. [`next_for`] asks in turn whether a block of its space is to be spilled, whether it
//! gets a copy of a block that it touches, whether one of these is called back, whether what it needs is copied to it from a
//! copy in memory, and whether a copy is lent to it for that; of each, the least block and then the least space first.
//! `candidates` of `specs/Candidates.antt` is the list, and `IsFirstLegal` of `specs/First.antt` says which of it is taken.
//!
//! It goes through the blocks that the task touches and the spaces, and takes no memory. The sums of a space go through its
//! blocks; they are asked for once at the front, and for a block that is absent, out or lent.
#![tactic(auto)]

mod blocks;
mod copies;
mod events;
mod picks;

pub use events::next_for;
