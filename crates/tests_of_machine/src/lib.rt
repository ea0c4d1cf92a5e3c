//! Tests of what the event machine stands on: `dd_owed`, `dd_history` and `dd_copies`, and of the Plans whose journals `dd_machine`
//! computes.
//!
//! This crate has tests alone, and no other crate stands on it. Each module is one noun: a table of rows whose answers
//! come from outside, and the helpers that ask for them. `plans` reads the scripts of several of them.
#![tactic(auto)]

#[cfg(test)]
mod copies;
#[cfg(test)]
mod current;
#[cfg(test)]
mod owed;
#[cfg(test)]
mod plans;
#[cfg(test)]
mod worked;
