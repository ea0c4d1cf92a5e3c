//! Copies of blocks, and the works that a task's kernel is run by.
//!
//! ```text
//! let mut copy = fresh_fill(alloc, &plan, 1)?;        // the array's fill, all versions 0
//! let mut work = Work::new(alloc, &plan, 1, worker, number, false)?;
//! work.collect(&copy);                                // once for each block that the task touches
//! let mut args = work.begin();
//! apply(kernel, scalar, &mut args);
//! work.done(args);
//! copy.reserve(2 * written)?;
//! copy.store_outputs(&work);                          // the written places get their values, and version 1
//! ```
//!
//! A copy has a value for each place of a block, and beside it a version: the number of a task, 0 for the fill, or
//! 4294967295 where the value says nothing. While its mark told is true, a value with version k is that of its element after
//! tasks 1 to k (`AreTrue` of `specs/Cells.antt`): the type keeps it, whatever is taken from other copies and stored. A work
//! has one buffer for each access of its task. It knows which blocks are left to collect, and owns the buffers from `new` until
//! they are stored, but while the kernel has them.
//!
//! No call but those that make a copy or a work, and `reserve`, takes memory. `gather` and `store_outputs` go column by column
//! over a view, without a division where its rows follow each other, and copy slices where neighbours of the view are neighbours in
//! the block.
//!
//! Inside, `piece` finds the part of a view's column that stands in a block, `gathering` and `storing` walk it, `places` takes
//! places from another copy, `fill` makes what a block holds at first, and `rows` reads the Plan.
#![tactic(auto)]

mod collecting;
mod fill;
mod gathering;
mod piece;
mod places;
mod rows;
mod stamped;
mod storing;
mod work;

pub use stamped::{Stamped, blank, fresh_fill, restored};
pub use work::{Stage, Work};
