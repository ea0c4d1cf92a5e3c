//! Tests of the crates that keep values: of `dd_store`.
//!
//! This crate has tests alone, and no other crate stands on it. Each module is one noun: a table of rows whose answers
//! come from outside, and the helpers that ask for them.
#![tactic(auto)]

#[cfg(test)]
mod codec;
#[cfg(test)]
mod folders;
#[cfg(test)]
mod stores;
