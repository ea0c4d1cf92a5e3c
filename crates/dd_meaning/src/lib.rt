//! What a script means, over its Plan: the arrays that its tasks change one after the other, and what is printed of
//! them.
//!
//! A world is the values of all arrays (`specs/Worlds.antt`). A task gathers its accesses from a world, its kernel
//! computes, and what it wrote is stored (`specs/Steps.antt`). The worlds after each task of the script are its sequence,
//! and what the statements print of them is its text (`specs/Text.antt`). None of this knows of spaces, blocks or
//! workers.
//!
//! How many elements a region has to move follows from where its tasks are placed: which task wrote an element last
//! (`specs/Versions.antt`), in which space that version is made, and where it is wanted (`specs/Moves.antt`).
//!
//! The value of one element after so many tasks (`specs/Values.antt`) is what the last of them that writes it stored
//! (`specs/Written.antt`), and stays where no task writes the element ([`laws::unwritten_values_stay`]).
//!
//! The crate holds these definitions and, in `proofs/`, lemmas and examples of them. Its only calls are its [`laws`].
#![tactic(auto)]

pub mod laws;
