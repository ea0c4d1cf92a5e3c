//! Tests of the crates that say what tasks have to do with each other and where they run: of the conflicts and dependencies of
//! `dd_alias`, and of `dd_place`.
//!
//! This crate has tests alone, and no other crate stands on it. Each module is one noun: a table of rows whose answers
//! come from outside, and the helpers that ask for them. `samples` makes tasks for several of them.
#![tactic(auto)]

#[cfg(test)]
mod conflicts;
#[cfg(test)]
mod dependencies;
#[cfg(test)]
mod pairs;
#[cfg(test)]
mod placements;
#[cfg(test)]
mod samples;
