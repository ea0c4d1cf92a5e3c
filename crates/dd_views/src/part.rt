ghost use Rattle.std.specs.Prelude.{◌≡◌, ◌≢◌, ◌^◌, ◌+◌, ◌<◌, ◌↔◌, IsTrue};

use crate::place::{Place, above, below, in_lower, in_upper, in_whole, on_diagonal};
use crate::triangle::triangle;

/// The part of a view that counts, by the place of an element in its view and not in its array.
#[derive(Clone, Copy, Debug, PartialEq, Eq)]
pub enum Part {
    All,
    /// The diagonal and what is below it.
    Lower,
    /// The diagonal and what is above it.
    Upper,
    /// What is below the diagonal.
    UnitLower,
    /// What is above the diagonal.
    UnitUpper,
    Diag,
}

impl Part {
    ghost use Rattle.dd_views.specs.Columns.{first_row, row_count, size_by};
    ghost use Rattle.dd_views.specs.IndexList.{keeps};
    ghost use Rattle.dd_views.specs.Places.{StandsAt};

    /// Whether the part is one of square views alone.
    pub(crate) fn wants_square(self) -> bool
        ensures { IsTrue result ↔ (self ≢ Part.All) }
    {
        !matches!(self, Part::All)
    }

    /// How many elements of `rows` rows and `cols` columns the part keeps.
    pub(crate) fn size(self, rows: u32, cols: u32) -> u64
        ensures { result ≡ size_by self rows cols }
    {
        let order = u64::from(cols);
        match self {
            Part::All => u64::from(rows) * order,
            Part::Lower | Part::Upper => triangle(order),
            Part::UnitLower | Part::UnitUpper => triangle(order.saturating_sub(1)),
            Part::Diag => order,
        }
    }

    /// The first row that the part keeps in a column. The row is from 1 and the column from 0.
    pub(crate) fn first_row(self, j: u32) -> u64
        ensures { result ≡ first_row self (j + 1) }
    {
        match self {
            Part::All | Part::Upper | Part::UnitUpper => 1,
            Part::Lower | Part::Diag => u64::from(j) + 1,
            Part::UnitLower => u64::from(j) + 2,
        }
    }

    /// How many of `rows` rows the part keeps in a column, from 0.
    pub(crate) fn row_count(self, rows: u32, j: u32) -> u32
        requires { self ≢ Part.All → j < rows }
        ensures { result ≡ row_count self rows (j + 1) }
    {
        match self {
            Part::All => rows,
            Part::Lower => rows - j,
            Part::Upper => j + 1,
            Part::UnitLower => rows - j - 1,
            Part::UnitUpper => j,
            Part::Diag => 1,
        }
    }

    /// The place of an element in a view of `rows` rows, by its place in the order of the part, from 0.
    pub(crate) fn place_at(self, i: u64, rows: u32) -> Place
        requires small { i < 2 ^ 63 }
        requires rows { 0 < rows }
        requires within { self ≢ Part.All → i < size_by self rows rows }
        ensures { StandsAt self rows i result }
    {
        let order = u64::from(rows);
        match self {
            Part::All => in_whole(i, order),
            Part::Lower => in_lower(i, order),
            Part::Upper => in_upper(i),
            Part::UnitLower => below(i, order),
            Part::UnitUpper => above(i),
            Part::Diag => on_diagonal(i),
        }
    }

    /// Whether the part keeps the element at a place.
    pub(crate) fn keeps(self, place: Place) -> bool
        ensures { result ≡ keeps self place.row place.col }
    {
        match self {
            Part::All => true,
            Part::Lower => place.row >= place.col,
            Part::Upper => place.row <= place.col,
            Part::UnitLower => place.row > place.col,
            Part::UnitUpper => place.row < place.col,
            Part::Diag => place.row == place.col,
        }
    }
}
