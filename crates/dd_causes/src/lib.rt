//! The words that every layer of `ddeps` shares when it says why a call failed and what it left behind.
//!
//! A source, a sink or a store counts its faults, and a call that answers a fault says that the count
//! rose while it ran (`specs/Counts.antt`). A call that was stopped in the middle of its output says
//! which front of it was appended (`specs/Appended.antt`). A reader that may stop at each step is
//! defined by its steps (`specs/Steps.antt`).
//!
//! The crate holds these definitions and, in `proofs/`, the lemmas on them that several crates cite. Its one call,
//! `next_fails`, serves the objects in memory that fail at the calls that they are told.
#![tactic(auto)]

mod calls;

pub use calls::next_fails;
