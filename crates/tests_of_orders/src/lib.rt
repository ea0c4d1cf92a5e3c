//! Tests of the crates of numbers and orders that the machine stands on: of `dd_spans` and `dd_recency`.
//!
//! This crate has tests alone, and no other crate stands on it. Each module is one noun: a table of rows whose answers
//! come from outside, and the helpers that ask for them.
#![tactic(auto)]

#[cfg(test)]
mod orders;
#[cfg(test)]
mod run_maps;
#[cfg(test)]
mod sorted_numbers;
