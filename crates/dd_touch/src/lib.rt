//! The blocks that the accesses of a task touch, and what the task takes of the space that it runs in.
//!
//! ```text
//! let blocks = touched_blocks(alloc, &plan, &accesses)?; // their numbers, rising
//! let charge = charge_of(&plan, &accesses, &blocks);     // in bytes
//! ```
//!
//! No list of elements is made. The rows of a view that lie in one row of blocks stand at places one after the other, and so
//! do its columns; a division gives the last of them. So a view costs some divisions for each block that it touches and for
//! each column of blocks that its columns lie in. Only the list of blocks takes memory.
//!
//! Inside, `strips` goes from one strip of an edge to the next, `places` has the rows that a part keeps in some columns,
//! `touched` goes through the columns of blocks, and `charge` adds up. What a task touches and takes is defined in
//! `dd_blocks`; the definitions here are cited by private contracts alone.
#![tactic(auto)]

mod charge;
mod places;
mod strips;
mod touched;

pub use charge::{access_elements, charge_of};
pub use touched::touched_blocks;
