//! The copies of the blocks of a Plan: those in the memory of each space, and those that were written to slots.
//!
//! A pool has at most one copy of a block for each space, and knows how many bytes the copies of a space have. It says
//! what is where, and not why: which copy comes and goes is decided above. A copy that has to leave the memory is written to a
//! slot of a store (`spill`), and comes back with the versions that it left with (`recall`). Where the store tells what its
//! slots hold, the values that come back are those that left; where it doesn't, the mark of the copy says so.
//!
//! ```text
//! let copy = pool.take(space, block).unwrap();
//! let out = spill(alloc, copy, store.make()?)?;
//! pool.put_out(space, block, out)?;
//! ```
//!
//! A pool also counts the names of each array: its blocks are of no use any more once `release` answers 0.
//!
//! Inside, the copies and the slots stand in a slab each, behind one key for each space and block, so a pool takes memory for
//! the copies that are there, and a few bytes for each that isn't. The bytes of a space are a number that is kept.
#![tactic(auto)]

mod cells;
mod copies;
mod places;
mod pool;
mod spilled;

pub use pool::Pool;
pub use spilled::{Spilled, spill};
