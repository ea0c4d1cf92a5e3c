//! Tests of the event machine as one value, `dd_core`: whole runs of it, entries that it refuses, what it tells on the way, and
//! tasks that it leads on.
//!
//! This crate has tests alone, and no other crate stands on it. Each module is one noun: a table of rows whose answers
//! come from outside, and the helpers that ask for them. `plans` and `runs` serve several of them. The Plans are those that
//! `dd_check` gives.
#![tactic(auto)]

#[cfg(test)]
mod answers;
#[cfg(test)]
mod leads;
#[cfg(test)]
mod plans;
#[cfg(test)]
mod refusals;
#[cfg(test)]
mod runs;
#[cfg(test)]
mod terms;
