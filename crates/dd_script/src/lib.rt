//! The reader of the lines of a script.
//!
//! `statement_of` reads one line of the whole language from its tokens:
//!
//! ```text
//! let line = b"task copy Out(B) A[1:2,:]";
//! statement_of(alloc, line, &tokens(alloc, line)?)
//! ```
//!
//! gives a `Task` with the kernel `copy` and two pieces: all of `B`, which is written, and the rows 1 to 2 of `A`,
//! which are read. A line without tokens has no statement. Whether a name names anything, a kernel is one, or a range
//! lies in its array, is for the reader of the script as a whole.
//!
//! A line is gone through once, to its statement as it stands there (`written`), with numbers of any size and any words
//! in its arguments. Then its numbers are looked at, then the words: so each fault comes before those that are asked after it. Only names
//! and lists take memory.
//!
//! Inside, each file from `word` to `form` has a part of a line and how it is read from the front of some tokens, by the
//! steps of a definition of the same name. `specs/Spelling.antt` says how each statement is spelled, apart from any
//! reading, and `specs/Reads.antt` what a line says; laws join the two (`laws`).
#![tactic(auto)]

mod access;
mod argument;
mod filling;
mod form;
mod index;
mod keyword;
pub mod laws;
mod mark;
mod meaning;
mod numbers;
mod numeral;
mod pair;
mod piece;
mod pieces;
mod read;
mod statement;
mod viewed;
mod word;
mod written;

pub use piece::Piece;
pub use read::statement_of;
pub use statement::Statement;
