//! The edges of an array.
ghost use Rattle.std.specs.Prelude.{◌≡◌, ◌*◌, ◌≤◌, ◌↔◌, IsTrue, true};
ghost use Rattle.dd_blocks.specs.Grids.{IsGrid, element_count};
ghost use Rattle.dd_blocks.specs.Limits.{edge_limit};
ghost use Rattle.dd_check.specs.Kinds.{HasBadShape, is_edge};
ghost use Rattle.dd_check.specs.Rows.{grid_of};

use dd_blocks::Grid;
use dd_blocks::limits::EDGE_LIMIT;
use dd_script::Statement;

fn is_edge(length: i64) -> bool
    ensures { result ≡ is_edge length }
{
    1 <= length && length <= EDGE_LIMIT as i64
}

/// Whether the statement makes an array with an edge that is too short or too long.
pub(crate) fn has_bad_shape(x: &Statement) -> bool
    ensures { IsTrue result ↔ HasBadShape x.now }
{
    match x {
        Statement::Array {
            rows,
            cols,
            brows,
            bcols,
            ..
        } => !(is_edge(*rows) && is_edge(*cols) && is_edge(*brows) && is_edge(*bcols)),
        _ => false,
    }
}

/// The grid of edges that are neither too short nor too long.
pub(crate) fn grid_of(rows: i64, cols: i64, brows: i64, bcols: i64) -> Grid
    requires rows { is_edge rows ≡ true }
    requires cols { is_edge cols ≡ true }
    requires brows { is_edge brows ≡ true }
    requires bcols { is_edge bcols ≡ true }
    ensures value { result ≡ grid_of rows cols brows bcols }
    ensures grid { IsGrid result }
    ensures small { element_count result ≤ edge_limit * edge_limit }
{
    Grid {
        rows: rows as u32,
        cols: cols as u32,
        brows: brows as u32,
        bcols: bcols as u32,
    }
}
