use crate::piece::Piece;
use dd_blocks::{Fill, Name, Policy, Rule};
use dd_views::Items;

/// What a line says. Names are as they stand there: whether they name anything is for the script as a whole.
#[derive(Debug, Drop)]
pub enum Statement {
    /// A space and its limit in bytes, 1 to 2^40.
    Space {
        name: Name,
        limit: u64,
    },
    /// A processor and the space that it works in.
    Proc {
        name: Name,
        space: Name,
    },
    /// Which block leaves a full space first.
    PolicyIs(Policy),
    /// How tasks are placed on processors.
    PlaceIs(Rule),
    /// An array with its rows and columns, those of its blocks, and what it holds at first.
    Array {
        name: Name,
        rows: i64,
        cols: i64,
        brows: i64,
        bcols: i64,
        fill: Fill,
    },
    /// A second name for an array.
    Same {
        name: Name,
        old: Name,
    },
    /// The end of a name.
    Drop(Name),
    /// A new home for an array.
    MoveTo {
        name: Name,
        space: Name,
    },
    /// The begin of a region.
    Region,
    /// A task: its kernel, its scalar and its accesses.
    Task {
        kernel: Name,
        scalar: Option<i64>,
        pieces: Items<Piece>,
    },
    /// The end of a region.
    End,
    /// The values of an array are printed.
    Print(Name),
    /// The sum of an array is printed.
    Sum(Name),
    /// The number of moved elements is printed.
    Moved,
}
