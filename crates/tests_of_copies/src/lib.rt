//! Tests of the crates that keep copies: of `dd_stamps` and `dd_pool`.
//!
//! This crate has tests alone, and no other crate stands on it. Each module is one noun: a table of rows whose answers
//! come from outside, and the helpers that ask for them. `plans` reads the scripts of several of them.
#![tactic(auto)]

#[cfg(test)]
mod copies;
#[cfg(test)]
mod lies;
#[cfg(test)]
mod plans;
#[cfg(test)]
mod pools;
#[cfg(test)]
mod spills;
#[cfg(test)]
mod works;
