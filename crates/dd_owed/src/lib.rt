//! The entries that the statements of a script ask for, one at a time: which comes next, and where it leads.
//!
//! ```text
//! let first = next_entry(&plan, 0, 0);       // of the first row that has entries
//! let (row, made) = one_more(&plan, 0, 0);   // that row, and 1
//! let second = next_entry(&plan, row, made);
//! ```
//!
//! A position is the number of the row at work, or 0 before the first, and how many of its entries were made. What is left
//! from there on follows from the script alone; these calls give the front of it without listing it. `None` says
//! that all entries of all rows were made.
//!
//! An entry of an array that is made, printed or summed up costs some divisions and a walk over the rows above, for the home of
//! its block. One of a move goes through the blocks of its array besides. Rows that have no entries are passed one by one.
//!
//! Inside, `blocks` finds blocks by their places in an array, `events` has the events of each kind of statement, `row_events`
//! those of a row, and `entries` goes from row to row. It takes no memory.
#![tactic(auto)]

mod blocks;
mod entries;
mod events;
mod row_events;

pub use entries::{next_entry, one_more};
