//! The place of an element in a view, by its place in the view's order.
ghost use Rattle.std.specs.Prelude.{◌≡◌, ◌+◌, ◌-◌, ◌*◌, ◌^◌, ◌≤◌, ◌<◌};
ghost use Rattle.dd_views.specs.Triangle.{triangle};

use crate::triangle::{corner_at, corner_from_end};

/// The row and the column of an element in its view, from 1.
#[derive(Clone, Copy, Debug)]
pub struct Place {
    pub row: u64,
    pub col: u64,
}

/// In a whole view whose columns have `height` elements.
pub fn in_whole(i: u64, height: u64) -> Place
    requires small { i < 2 ^ 63 }
    requires rows { 0 < height }
    ensures index { (result.col - 1) * height + result.row ≡ i + 1 }
    ensures row { (1 ≤ result.row) × (result.row ≤ height) }
    ensures col { 1 ≤ result.col }
{
    Place {
        row: i % height + 1,
        col: i / height + 1,
    }
}

/// On the diagonal.
pub fn on_diagonal(i: u64) -> Place
    requires { i < 2 ^ 63 }
    ensures row { result.row ≡ i + 1 }
    ensures col { result.col ≡ i + 1 }
{
    Place {
        row: i + 1,
        col: i + 1,
    }
}

/// In an upper triangle with its diagonal.
pub fn in_upper(i: u64) -> Place
    requires { i < 2 ^ 63 }
    ensures index { triangle (result.col - 1) + result.row ≡ i + 1 }
    ensures row { (1 ≤ result.row) × (result.row ≤ result.col) }
{
    let corner = corner_at(i);
    Place {
        row: corner.row + 1,
        col: corner.col + 1,
    }
}

/// In an upper triangle without its diagonal.
pub fn above(i: u64) -> Place
    requires { i < 2 ^ 63 }
    ensures index { triangle (result.col - 2) + result.row ≡ i + 1 }
    ensures row { (1 ≤ result.row) × (result.row < result.col) }
{
    let corner = corner_at(i);
    Place {
        row: corner.row + 1,
        col: corner.col + 2,
    }
}

/// In a lower triangle with its diagonal, which is an upper one read from its end.
pub fn in_lower(i: u64, order: u64) -> Place
    requires small { order < 2 ^ 32 }
    requires within { i < triangle order }
    ensures index { triangle order + result.row ≡ i + result.col + triangle (order + 1 - result.col) }
    ensures row { (result.col ≤ result.row) × (result.row ≤ order) }
    ensures col { 1 ≤ result.col }
{
    let corner = corner_from_end(i, order);
    Place {
        row: order - corner.row,
        col: order - corner.col,
    }
}

/// In a lower triangle without its diagonal.
pub fn below(i: u64, order: u64) -> Place
    requires small { order < 2 ^ 32 }
    requires within { i < triangle (order - 1) }
    ensures index { triangle (order - 1) + result.row ≡ i + (result.col + 1) + triangle (order - result.col) }
    ensures row { (result.col < result.row) × (result.row ≤ order) }
    ensures col { 1 ≤ result.col }
{
    let corner = corner_from_end(i, order.saturating_sub(1));
    Place {
        row: order - corner.row,
        col: order - 1 - corner.col,
    }
}
