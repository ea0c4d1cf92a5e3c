//! A script on whole arrays.
//!
//! ```text
//! run_plain(rt.alloc(), &plan, &mut out)?;
//! ```
//!
//! runs the tasks of a [`Plan`](dd_blocks::Plan) one after the other and writes the script's text to a sink, row by row.
//! It is the meaning of a script as a program, `text_of` of `dd_meaning/specs/Text.antt`, and knows nothing of copies or
//! workers. A run that keeps the limits of spaces is compared with it, and does not rest on it.
//!
//! The values of each array are one vector, column by column. An access whose elements stand one after the other is lent
//! to its kernel without a copy, where no other access of the task shares an element with it. All others are gathered
//! column by column, and stored back where they are written, in their order. So a run takes the vectors, the buffers of
//! one task, some rows of text, and the marks of `dd_transfers`. How much that is no contract says.
//!
//! Inside, `world` fills the arrays, `gathering` and `storing` walk a view over an array, `runs` finds where elements
//! stand one after the other, `lending` says which arrays a task may have, `computing` runs kernels, `task` runs tasks,
//! `tasks` finds those of a region, and `run` goes from row to row; `dd_text` prints, and `dd_transfers` counts what
//! moves. What is lent stands in `specs/Lending.antt`, what a kernel leaves of it in `specs/Runs.antt`, and what a run has
//! between two rows in `specs/Rows.antt`.
#![tactic(auto)]

mod computing;
mod gathering;
mod lending;
mod run;
mod runs;
mod storing;
mod task;
mod tasks;
mod world;

pub use dd_text::PrintFault as PlainFault;
pub use run::run_plain;
