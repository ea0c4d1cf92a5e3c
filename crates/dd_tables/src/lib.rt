//! The state of the event machine as tables, and its terms: who is at work, what is pinned, what is in use of a space, what is
//! needed.
//!
//! [`Tables`] has a row for each space, task, block and element of a Plan, and beside the state two things that make the tests of
//! events cheap: the entry that the statements ask for next, and for each processor the task that is at work on it. `state_of`
//! of `specs/Tables.antt` is the state that the tables stand for, and `IsSized` of `specs/Sized.antt` says that they are those of
//! a Plan. A sum over all tasks is one over the processors, and one over a space goes through its blocks.
#![tactic(auto)]

mod elements;
mod idle;
mod loads;
mod needed;
mod pins;
pub mod rows;
mod states;
mod sums;
mod tables;
mod victims;
mod writes;

pub use elements::Element;
pub use needed::reads;
pub use tables::Tables;
pub use writes::{write_current, write_versions};
