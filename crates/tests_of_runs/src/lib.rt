//! Tests of whole runs and of what they stand on: of `dd_io`, `dd_check`, `dd_text`, `dd_plain` and `dd_session`.
//!
//! This crate has tests alone, and no other crate stands on it. Whole scripts that print or are refused stand in the tables
//! of `tests/`, which the built program runs; here are ends that give and take few bytes, fail, or are called once too
//! often, and what of a Plan no output shows. `memory_runs` has a run over a source and sinks in memory.
//! `damage` runs some thousand scripts: `rt test` builds it, and `rt try` takes too long for it.
#![tactic(auto)]

#[cfg(test)]
mod damage;
#[cfg(test)]
mod every_statement;
#[cfg(test)]
mod failing_ends;
#[cfg(test)]
mod memory_runs;
#[cfg(test)]
mod printed_lines;
#[cfg(test)]
mod scripts;
#[cfg(test)]
mod streams;
#[cfg(test)]
mod task_rows;
#[cfg(test)]
mod touched_blocks;
