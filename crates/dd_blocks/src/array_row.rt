use crate::fill::Fill;
use crate::grid::Grid;

/// An array.
#[derive(Clone, Copy, Debug, PartialEq, Eq)]
pub struct ArrayRow {
    /// How it is cut into blocks.
    pub grid: Grid,
    /// What it holds at first.
    pub fill: Fill,
    /// The number of its first block. The others follow it.
    pub first_block: u32,
    /// How many elements the arrays before it have.
    pub first_element: u64,
}
