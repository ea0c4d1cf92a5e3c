//! The copies of blocks in memory spaces: where the values of each are, and the version of each of its places. It holds no
//! values.
//!
//! [`Copies`] is a table with a row for each space, and in it a cell for each block. It is seen as that table, and through
//! `copies_of` of `specs/CopyTables.antt` as the machine sees its copies: a function of the space and the block. A number that
//! is none of a space or of a block has no copy, so a look-up asks for nothing.
#![tactic(auto)]

mod block_copy;
mod copies;
mod numbers;

pub use block_copy::BlockCopy;
pub use copies::{Copies, Row};
pub use numbers::at;
