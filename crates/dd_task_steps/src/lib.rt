//! What the events of tasks and copies change of the machine's tables: a function for each.
//!
//! Each asks that its event is legal in the state that the tables stand for, makes the state that `specs/Effects.antt` of
//! dd_machine has after it, and keeps the tables those of their Plan. [`copy`] serves the events Copy and Back, as task 0 stands
//! for the write-back. [`make`] and [`come`] alone may want memory, and then change nothing. The others take none: what
//! [`copy`] and [`finish`] write goes where the old versions were.
//!
//! A step is made of the single changes of dd_changes. `specs/Written.antt` is cited by private contracts alone.
#![tactic(auto)]

mod copying;
mod holding;
mod running;
mod spilling;

pub use copying::{copy, lend};
pub use holding::{hold, make};
pub use running::{claim, finish};
pub use spilling::{call, come, gone, pick};
