//! Arrays and their sums, printed: a run brings their blocks to their homes, one after another.
//!
//! ```text
//! print_array(alloc, &mut table, array, &mut out)?;
//! print_sum(alloc, &mut table, b"A", array, &mut out)?;
//! ```
//!
//! The bytes are those of `printed` and `summed` in `dd_meaning/specs/Text.antt`. What is printed of an array are the values of the
//! current versions of its elements, where slots tell or nothing was spilled (`specs/Held.antt`). What is entered are an Ask and a
//! Rest for each block, and between them swaps (`specs/Asks.antt`, and `Follows` of dd_statements). A fault leaves a prefix of the
//! text on the sink.
//!
//! An array is printed one row of blocks at a time: each of these blocks is pinned, copied into a band, and given up again. So the
//! band, which no limit of a space counts, has as many rows as a block. `dd_text` writes its numbers.
//!
//! Inside, `array` and `sum` have a call each, and `fault` says why one ends early.
#![tactic(auto)]

mod array;
mod fault;
mod sum;

pub use array::print_array;
pub use fault::PrintFault;
pub use sum::print_sum;
