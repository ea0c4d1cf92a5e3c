//! The event machine: the state of a run over memory spaces with limits, which entries are legal in it, and what each changes.
//!
//! ```text
//! let mut core = Core::new(alloc, &plan)?;
//! if core.legal(&plan, entry) {
//!     core.step(&plan, entry)?;   // core.finish(&plan, entry), where nothing may be refused any more
//! }
//! ```
//!
//! A [`Core`] holds no values. Every core that [`Core::new`] made and [`Core::step`] and [`Core::finish`] changed is in a sound
//! state of its Plan (`IsCoreOf` of `specs/Cores.antt`), which both ask for and keep; so the laws of [`laws`] hold of each run
//! that is made of legal entries. After want of memory a core is as it was.
//!
//! A test of an entry goes through what the entry names, and a sum over a space through the blocks of the space;
//! [`Core::next_for`] goes through the blocks that its task touches and the spaces.
//!
//! Inside, dd_tables has the tables and their terms, dd_legal the tests, dd_next the choice for a task, dd_row_steps and
//! dd_task_steps the changes. This crate joins them, and keeps the state sound.
#![tactic(auto)]

mod changes;
mod due;
pub mod laws;
mod state;

pub use changes::is_final;
pub use dd_machine::{CopyState, Entry, Event, TaskState};
pub use state::Core;
