//! Lemmas on lists that several crates need: tests and sums over lists, lists that are made of lists, and numbers that
//! stand one after the other.
//!
//! It stands below all crates with lists in their proofs. Nothing in it speaks of arrays, views or tasks, and it has no
//! calls: the lemmas are in `proofs/`, those that `std` lacks. A lemma that one crate alone needs stays in that crate.
#![tactic(auto)]
