//! The tables of the machine at the start, and the steps of the statements: what each event changes by which the statements go
//! on, from entry to entry.
//!
//! ```text
//! let mut tables = start(alloc, &plan)?;
//! ask(&plan, &mut tables, 1, 1);              // the pin is on block 1 in space 1
//! put(&plan, &mut tables, 1)?;                // its copy is there, all of version 0
//! rest(&plan, &mut tables);                   // no pin, and the position is behind the three entries
//! ```
//!
//! Each call asks that its event is legal, which `legal` of `dd_legal` tests, and some that the state is sound, as each state of
//! a legal run is. It leaves the state that `specs/Effects.antt` of `dd_machine` says. In an open region an ask, a rest and a
//! free leave the position as it is. [`put`] and [`shift`] may want memory, and then change nothing. [`start`] makes all tables.
#![tactic(auto)]

mod advance;
mod asks;
mod initial;
mod moves;
mod regions;

pub use asks::{ask, rest};
pub use initial::start;
pub use moves::{free, put, shift};
pub use regions::{begin, close};
