//! The names of arrays, and their moves to other spaces.
//!
//! ```text
//! same_name(&mut table, array);              // one name more
//! move_array(&mut table, array, space)?;     // its blocks have their home there
//! drop_name(&mut table, array);              // with the last name the copies go
//! ```
//!
//! An array that was put has its first name by `same_name` too. Until the last name is dropped no copy is taken away, but for a
//! move, which takes the home copy along.
//!
//! Inside, `names` has the names and `moving` the moves.
#![tactic(auto)]

mod moving;
mod names;

pub use moving::move_array;
pub use names::{drop_name, same_name};
