//! What a script prints, as bytes on a sink.
//!
//! ```text
//! print_array(alloc, &mut room, grid, &values, &mut out)?;
//! print_sum(&mut room, b"A", &values, &mut out)?;
//! print_moved(&mut room, moved, &mut out)?;
//! ```
//!
//! The bytes are those of `printed`, `summed` and `moved_line` in `dd_meaning/specs/Text.antt`: an array row by row, its
//! sum behind a name, a number of elements. Each call is handed the room in which its text waits. A fault of the sink, or
//! want of memory, leaves a front of the text on the sink.
//!
//! An array is written many rows at a time, by one `write_all` for some 64 KiB. Where its columns are long, the numbers of
//! a row stand far from each other, so 16 rows are gathered at once, column by column, and printed from there.
//!
//! Inside, `band` gathers rows, `row` prints them, and `printing` has the public calls.
#![tactic(auto)]

mod band;
mod fault;
mod printing;
mod row;

pub use fault::PrintFault;
pub use printing::{print_array, print_moved, print_sum};
