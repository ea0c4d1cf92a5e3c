//! Single changes of the machine's tables, of which the steps of its events are made: a copy put, taken or in another state; a
//! block in front of an order, new to it, or out of it; a task in another state.
//!
//! Each says what it changes of the state as a record with one field new, keeps the tables those of their Plan, and touches
//! nothing else. [`add_front`] alone may want memory, and then changes nothing.
#![tactic(auto)]

mod copies;
mod orders;
mod tasks;

pub use copies::{give_back, move_copy, set_copy, set_state, take_copy};
pub use orders::{add_front, front, without};
pub use tasks::set_task;
