//! The copies and slots of a run, beside the ledger whose entries made them.
//!
//! ```text
//! let mut holding = Holding::new(alloc, &plan)?;
//! holding.note(entry)?;               // an entry that touches no values
//! holding.put(entry, block)?;         // one that does, with what it does to them
//! holding.values(space, block)        // of a copy that is Here
//! ```
//!
//! The type of a [`Holding`] keeps that a copy is in memory exactly where the machine's state has it Here, and with the versions of
//! the state; that a slot is of a copy that the state has in a slot; and that all values are true where the store's slots tell what
//! they hold, or where no block was ever picked (`IsHolding` of `specs/Facts.antt`).
//!
//! Each call makes one entry. Those that may want memory leave all as it was where they do. Slots are made and ended by the
//! caller: a holding takes them and gives them back.
#![tactic(auto)]

mod adding;
mod carrying;
mod holding;
mod leaving;
mod running;
mod shifting;
mod users;

pub use holding::Holding;
