//! A run from the words of its command to its status.
//!
//! ```text
//! let outcome = run_words(alloc, &words, &mut src, &mut out, &mut err, store);
//! ```
//!
//! reads a script from the source, checks it whole, runs it, and writes what it prints to `out`. `run` runs it over its spaces, with
//! the blocks that don't fit in slots of the store, and `plain` on whole arrays. A script that is refused writes nothing there, and
//! one line to `err` that names its first fault. The store comes back in the outcome, with the journal of the run.
//!
//! What a status says is one relation, `EndsWith` of `specs/Outcomes.antt`. From where the script comes and what its run leaves are
//! its parameters, so commands with other scripts and runs can say the same.
//!
//! Inside, `words` has the words of a command, `run` the order of a run, `one_worker` a run over spaces by one worker, `status` what
//! a command comes to, and `reporting` the line of each status, with the names of the kinds of fault in `kind_name`.
#![tactic(auto)]

mod kind_name;
mod one_worker;
mod reporting;
mod run;
mod status;
mod words;

pub use one_worker::run_one;
pub use reporting::report;
pub use run::run_words;
pub use status::{Outcome, Status};
pub use words::CommandWords;
