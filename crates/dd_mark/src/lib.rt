//! A mark that contracts alone see: whether what a value says of itself may be relied on.
//!
//! A value that came back from a place that promises nothing, as a file, may be wrong. Its type carries a `Told`, and says
//! what it says only where the mark is true. The mark has no bytes and costs nothing when the program runs: whoever makes
//! a value picks its mark in the proof, and the mark of what was made from several values is their `both`.
//!
//! `Mark` is how a call picks: it takes a type parameter `M: Mark`, its clauses speak of `M.told`, and its caller gives the type
//! `Brand`, whose `told` is what the caller's proof says.
//!
//! A mark may cross threads: `proofs/Sent.antt` has what a proof that a type is `Send` or `Sync` needs of it.
#![tactic(auto)]

mod told;

pub use told::{Mark, Told};
