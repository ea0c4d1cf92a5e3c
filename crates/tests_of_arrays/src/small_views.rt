//! Views of arrays with short edges.
ghost use Rattle.std.specs.Prelude.{IfSome};
ghost use Rattle.dd_views.specs.Views.{IsView};

use dd_views::{Part, Range, Shape, View, view_of};

/// Rows and columns.
pub type Size = (u32, u32);

/// The first of a range, its step and its last.
pub type Steps = (i64, i64, i64);

pub const PARTS: [Part; 6] = [
    Part::All,
    Part::Lower,
    Part::Upper,
    Part::UnitLower,
    Part::UnitUpper,
    Part::Diag,
];

pub fn steps(range: Steps) -> Range {
    let (first, step, last) = range;
    Range::Steps { first, step, last }
}

/// A view of an array; none where it is refused, or where an edge is long.
pub fn small_view(array: u32, size: Size, rows: Range, cols: Range, part: Part) -> Option<View>
    ensures { IfSome result IsView }
{
    if size.0 < 65536 && size.1 < 65536 {
        let shape = Shape {
            rows: size.0,
            cols: size.1,
        };
        view_of(array, shape, rows, cols, part).ok()
    } else {
        None
    }
}
