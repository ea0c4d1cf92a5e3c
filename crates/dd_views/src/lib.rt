//! Ranges and views: which elements of an array an argument stands for, and in which order.
//!
//! ```text
//! let shape = Shape { rows: 3, cols: 3 };
//! let view = view_of(1, shape, Range::All, Range::All, Part::Lower)?;
//! ```
//!
//! is the lower triangle of array 1. Its positions are 0, 1, 2, 4, 5, 8: column after column, each position
//! `(column - 1) * height + (row - 1)`. A part goes by the place of an element in its view and not in the
//! array, so the upper part of rows 2 to 3 and columns 2 to 3 is 4, 7, 8.
//!
//! A view is its list of positions, `index_list` of `specs/IndexList.antt`. `len` is the list's length, `at` its
//! element at a place, `has` whether a position is in it, and `column` gives the positions of one column by the
//! first of them, a step and how many there are, so that whoever wants all of them needs no division for each. No
//! call takes memory or walks the elements: `len`, `has` and `column` are a few products and divisions, and `at` is
//! one division, or one square root in a triangle.
//!
//! Inside, `progression` makes the span that a range lists, of the bounds that `bounds` gives; `span3` goes from
//! a place to a number and back; `triangle` numbers the elements of columns of 1, 2, 3 and so on; `place` finds
//! the row and the column of an element by its place in a part's order; and `view` joins them. The definitions
//! of `specs/Columns.antt`, `Places.antt`, `Room.antt` and `Triangle.antt` are cited by private contracts alone.
#![tactic(auto)]

mod bounds;
mod column;
mod fault;
mod items;
mod part;
mod place;
mod progression;
mod range;
mod shape;
mod span3;
mod triangle;
mod view;

pub use column::Column;
pub use fault::ViewFault;
pub use items::Items;
pub use part::Part;
pub use progression::span;
pub use range::Range;
pub use shape::Shape;
pub use span3::Span3;
pub use view::{View, view_of};
