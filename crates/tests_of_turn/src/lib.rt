//! Tests of `dd_turn`: a number goes from thread to thread, and each thread sees the end.
//!
//! This crate has tests alone, and no other crate stands on it. What no clause of the lock can say is tested here: that a lock is
//! made, that a turn that is free is taken, that waiting threads are woken, and that the threads end.
#![tactic(auto)]

#[cfg(test)]
mod calls;
#[cfg(test)]
mod job;
#[cfg(test)]
mod tally;
#[cfg(test)]
mod threads;
#[cfg(test)]
mod worker;
