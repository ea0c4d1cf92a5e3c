//! Tests of single lines: of `dd_tokens` and `dd_script`.
//!
//! This crate has tests alone, and no other crate stands on it. A row has a line, and the tokens, the statement or the
//! fault that it is to be read as. `said` writes down what a line says.
#![tactic(auto)]

#[cfg(test)]
mod arguments;
#[cfg(test)]
mod faults;
#[cfg(test)]
mod said;
#[cfg(test)]
mod statements;
#[cfg(test)]
mod tokens;
