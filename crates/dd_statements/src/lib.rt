//! What statements that run no tasks have in common: they go block by block, and enter what they ask for.
//!
//! ```text
//! for block in first_block(plan, array)..end_of_blocks(plan, array) {
//!     table.put_block(block)?;
//! }
//! ```
//!
//! The blocks of an array stand one after another, so two numbers say which they are. What a statement enters is `Asks` of
//! `specs/Follows.antt`: the events that it asks for, in their order, and between them swaps, which make room in a space or bring a
//! copy back into it. Where the run stops these are the first of them.
#![tactic(auto)]

mod blocks;

pub use blocks::{end_of_blocks, first_block};
