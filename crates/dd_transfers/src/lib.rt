//! How many elements the regions of a script move.
//!
//! ```text
//! let mut moves = Moves::new(alloc, &plan)?;
//! moves.follow(&row.what);
//! let moved = moves.in_region(&plan, i, tasks);
//! ```
//!
//! [`Moves`] is kept from row to row. It follows the statements that move arrays, and at the row of a region it counts the
//! elements that the region has to move (`moved` of `dd_meaning/specs/Moves.antt`), by homes and places alone: nothing is
//! copied, and no limit of a space is asked.
//!
//! A mark stands for each element of all arrays. The tasks of a region are walked in their order, and each of them marks
//! the space in which it runs at the elements of its views: where the mark was missing, the element was moved there. At
//! the end the elements of the views are left, and those that their homes do not hold are moved home. Elements that no
//! task of the region uses are not looked at. Where there is one space, or no row below prints what was moved, nothing is
//! marked, and no marks are kept; else they take a byte for each element.
//!
//! A column of neighbours is walked in stretches of elements that have one home, each a plain loop over a slice of the
//! marks. One in other steps goes element by element, and so does one whose stretches are short.
#![tactic(auto)]

mod columns;
mod homes;
mod mark;
mod moves;
mod walk;

pub use moves::Moves;
