use dd_blocks::Name;
use dd_kernels::Mode;
use dd_views::{Part, Range};

/// One access of a task: an array by its name, which part of which view of it, and how it is used.
#[derive(Debug, Drop)]
pub struct Piece {
    pub mode: Mode,
    pub name: Name,
    pub rows: Range,
    pub cols: Range,
    pub part: Part,
}
