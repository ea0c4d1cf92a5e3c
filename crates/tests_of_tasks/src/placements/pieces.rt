//! Pieces of the arrays that tasks use.

use dd_views::{Part, Range};

/// The first of a range, its step and its last.
pub type Steps = (i64, i64, i64);

/// An array, rows, columns and a part.
pub type Piece = (u32, Steps, Steps, Part);

// Pieces that begin in a block, and some that are empty or begin elsewhere than at their least row.
pub const BLOCK_1: Piece = (1, (1, 1, 2), (1, 1, 2), Part::All);

pub const BLOCK_2: Piece = (1, (3, 1, 4), (1, 1, 2), Part::All);

pub const BLOCK_3: Piece = (1, (1, 1, 2), (3, 1, 4), Part::All);

pub const BLOCK_4: Piece = (1, (3, 1, 4), (3, 1, 4), Part::All);

pub const EMPTY: Piece = (1, (2, 1, 1), (1, 1, 4), Part::All);

pub const ROWS_1_TO_6: Piece = (2, (1, 1, 6), (1, 1, 1), Part::All);

pub const ROWS_3_TO_6: Piece = (2, (3, 1, 6), (1, 1, 1), Part::All);

pub const ROWS_6_TO_1: Piece = (2, (6, -1, 1), (1, 1, 1), Part::All);

pub const LOWER: Piece = (3, (1, 1, 3), (1, 1, 3), Part::Lower);

pub const LOWER_BACKWARD: Piece = (3, (3, -1, 1), (1, 1, 3), Part::Lower);

pub const UNIT_LOWER: Piece = (3, (1, 1, 3), (1, 1, 3), Part::UnitLower);

pub const UNIT_UPPER: Piece = (3, (1, 1, 3), (1, 1, 3), Part::UnitUpper);

pub fn range_of(range: Steps) -> Range {
    let (first, step, last) = range;
    Range::Steps { first, step, last }
}
