//! Columns of 1, 2, 3 and so on elements.
ghost use Rattle.std.specs.Prelude.{◌≡◌, ◌+◌, ◌*◌, ◌^◌, ◌<◌, ◌≤◌};
ghost use Rattle.dd_views.specs.Triangle.{triangle};

/// A column, from 0, and a row in it, from 0.
#[derive(Clone, Copy, Debug)]
pub struct Corner {
    pub row: u64,
    pub col: u64,
}

/// How many elements the first `order` columns have.
pub fn triangle(order: u64) -> u64
    requires { order < 2 ^ 32 }
    ensures value { result ≡ triangle order }
    ensures bound { result < 2 ^ 63 }
{
    order * (order + 1) / 2
}

/// Where the element at a place stands, column after column.
pub fn corner_at(i: u64) -> Corner
    requires { i < 2 ^ 63 }
    ensures place { triangle result.col + result.row ≡ i }
    ensures row { result.row ≤ result.col }
    ensures small { result.col < 2 ^ 32 }
{
    let col = column(i);
    Corner {
        row: i - triangle(col),
        col,
    }
}

/// The column of the element at a place.
fn column(i: u64) -> u64
    requires { i < 2 ^ 63 }
    ensures small { result < 2 ^ 32 }
    ensures before { triangle result ≤ i }
    ensures behind { i < triangle (result + 1) }
{
    let root = (2 * i).isqrt();
    if root * (root + 1) <= 2 * i {
        root
    } else {
        root - 1
    }
}

/// Where the element at a place stands in so many columns of which the longest comes first. The column and the
/// row are counted from the end, from 0.
pub fn corner_from_end(i: u64, columns: u64) -> Corner
    requires small { columns < 2 ^ 32 }
    requires within { i < triangle columns }
    ensures place { triangle result.col + result.row + i + 1 ≡ triangle columns }
    ensures row { result.row ≤ result.col }
    ensures col { result.col < columns }
{
    corner_at(triangle(columns) - 1 - i)
}
