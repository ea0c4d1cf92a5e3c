//! The lines that a run writes beside its arrays and sums: of its journal, and of how many elements moved.
//!
//! ```text
//! write_entries(&journal, &mut out)?;
//! journal_line(entry.event, &mut out)?;
//! moved_line(moved, &mut out)?;
//! ```
//!
//! An entry of a journal is one line: `! `, the word of its event, and each of its numbers behind a space. The bytes are those of
//! `journal_line` in `dd_machine/specs/Journal.antt`, and of `moved_line` in `dd_meaning/specs/Text.antt`. No call takes memory. A
//! fault of the sink leaves a prefix of the text on it.
//!
//! Inside, `journal` has the lines of events, one and many, and `moved` the other line.
#![tactic(auto)]

mod journal;
mod moved;

pub use journal::{journal_line, write_entries};
pub use moved::moved_line;
