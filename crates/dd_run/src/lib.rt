//! A script over its spaces, by one worker.
//!
//! ```text
//! let ran = run_plan(alloc, &plan, journal, &mut out, store);
//! ```
//!
//! runs the statements of a [`Plan`](dd_blocks::Plan) one after another over a [`Table`](dd_table::Table), and writes what each
//! prints once it has run, with `journal` followed by the lines of its entries. It waits for nobody and always returns. The run
//! that comes back has the journal, how many elements moved, the store, and why it ended early, if it did.
//!
//! Whatever the store and the sink do, the journal is a legal run and `moved` is its number. A run without a fault is whole, and
//! has written the script's text, where slots tell or nothing was spilled. These clauses stand in `specs/Runs.antt`,
//! with `Journals.antt` and `Texts.antt`.
//!
//! Inside, `run` has the call, `rows` goes from statement to statement, and `row` runs one by its kind: `puts` makes an array, `prints`
//! and `names` have the calls of one line, and `region` runs tasks. `promises` is what the laws of the machine say of a journal.
#![tactic(auto)]

mod names;
mod prints;
mod promises;
mod puts;
mod region;
mod row;
mod rows;
mod run;

pub use dd_print::PrintFault as Fault;
pub use run::{Ran, run_plan};
