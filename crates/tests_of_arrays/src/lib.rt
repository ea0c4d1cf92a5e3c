//! Tests of the crates that say which elements of an array an argument stands for, and in which blocks they are: `dd_views` and
//! `dd_blocks`, and of the overlaps of `dd_alias`.
//!
//! This crate has tests alone, and no other crate stands on it. Each module is one noun: a table of rows whose answers
//! come from outside, and the helpers that ask for them. `small_views` makes views for several of them.
#![tactic(auto)]

#[cfg(test)]
mod columns;
#[cfg(test)]
mod grids;
#[cfg(test)]
mod homes;
#[cfg(test)]
mod items;
#[cfg(test)]
mod names;
#[cfg(test)]
mod overlaps;
#[cfg(test)]
mod ranges;
#[cfg(test)]
mod small_views;
#[cfg(test)]
mod views;
