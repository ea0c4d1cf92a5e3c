//! Views and their elements.
ghost use Rattle.std.specs.Prelude.{◌≡◌, ◌≢◌, ◌+◌, ◌*◌, ◌^◌, ◌<◌, ◌≤◌, ◌↔◌, ◌⊎◌, ℕ, pos, ◌≤ℤ◌, AllPairs, Contains, IsTrue, IfOk, length, slice_index};
ghost use Rattle.dd_views.specs.declared.shape.Shape.{Shape};
ghost use Rattle.dd_views.specs.Columns.{first_row, row_count};
ghost use Rattle.dd_views.specs.IndexList.{column_list, index_list, position};
ghost use Rattle.dd_views.specs.Positions.{position_in, positions_in, stepped};
ghost use Rattle.dd_views.specs.Views.{HasBadRange, IsNotSquare, IsView, IsViewOf, Shows, shape_of};

use crate::column::Column;
use crate::fault::ViewFault;
use crate::part::Part;
use crate::place::Place;
use crate::progression::span;
use crate::range::Range;
use crate::shape::Shape;
use crate::span3::Span3;

/// Some elements of an array, in an order: those at its rows and columns that its part keeps, column after
/// column.
#[derive(Clone, Copy, Debug, PartialEq, Eq)]
pub struct View {
    /// The number of the array.
    pub array: u32,
    /// The rows of the array.
    pub height: u32,
    pub rows: Span3,
    pub cols: Span3,
    pub part: Part,
}

/// A view of an array of the shape, which has no position twice. It takes no memory.
///
/// `BadRange` comes exactly where `span` refuses one of both ranges, and `NotSquare` exactly where it refuses
/// none, a part is asked for, and there aren't as many rows as columns.
pub fn view_of(
    array: u32,
    shape: Shape,
    rows: Range,
    cols: Range,
    part: Part,
) -> Result<View, ViewFault>
    requires { shape.rows * shape.cols < 2 ^ 63 }
    ensures ok { IfOk result (Shows array shape rows cols part) }
    ensures view { IfOk result (IsViewOf shape) }
    ensures once { IfOk result (λ v. AllPairs (λ x y. x ≢ y) (index_list v)) }
    ensures bad_range { (result ≡ Err ViewFault.BadRange) ↔ HasBadRange shape rows cols }
    ensures not_square { (result ≡ Err ViewFault.NotSquare) ↔ ((¬ HasBadRange shape rows cols) × IsNotSquare shape rows cols part) }
{
    let rows = span(rows, shape.rows)?;
    let cols = span(cols, shape.cols)?;
    if part.wants_square() && rows.count != cols.count {
        return Err(ViewFault::NotSquare);
    }
    Ok(View {
        array,
        height: shape.rows,
        rows,
        cols,
        part,
    })
}

impl View {
    /// How many elements the view has.
    pub fn len(&self) -> u64
        requires { IsView self.now }
        ensures value { result ≡ length (index_list self.now) }
        ensures few { (shape : Shape) → IsViewOf shape self.now → result ≤ shape.rows * shape.cols }
    {
        self.part.size(self.rows.count, self.cols.count)
    }

    /// The rows and columns of the view as an argument. The elements of a part are one column.
    pub fn shape(&self) -> Shape
        requires view { IsView self.now }
        requires fits { self.now.part ≢ Part.All → length (index_list self.now) < 2 ^ 32 }
        ensures { result ≡ shape_of self.now }
    {
        match self.part {
            Part::All => Shape {
                rows: self.rows.count,
                cols: self.cols.count,
            },
            _ => Shape {
                rows: self.len() as u32,
                cols: 1,
            },
        }
    }

    /// The position in the array of the element at a place, in column-major order of the view. Both are from 0.
    pub fn at(&self, i: u64) -> u64
        requires view { IsView self.now }
        requires within { i < length (index_list self.now) }
        ensures value { result ≡ slice_index (index_list self.now) i }
        ensures inside { (shape : Shape) → IsViewOf shape self.now → result < shape.rows * shape.cols }
    {
        let place = self.place_at(i);
        self.position(place)
    }

    /// The elements that a column of the view keeps, whose number is from 0. The columns one after the other are
    /// the view, and they need no division for each element.
    pub fn column(&self, j: u32) -> Column
        requires view { IsView self.now }
        requires within { j < self.now.cols.count }
        ensures value { positions_in result ≡ column_list self.now (j + 1) }
        ensures step { result.step ≡ self.now.rows.step }
        ensures none { result.count ≡ 0 → result.first ≡ 0 }
        ensures whole { (i : ℕ) → i < result.count → pos 0 ≤ℤ stepped result i }
        ensures inside { (shape : Shape) → IsViewOf shape self.now → (i : ℕ) → i < result.count → position_in result i < shape.rows * shape.cols }
    {
        let count = self.part.row_count(self.rows.count, j);
        Column {
            first: self.first_in(j, count),
            step: self.rows.step,
            count,
        }
    }

    /// Whether the view has the element at a position of the array.
    pub fn has(&self, pos: u64) -> bool
        requires { IsView self.now }
        ensures { IsTrue result ↔ Contains (index_list self.now) pos }
    {
        if self.height == 0 {
            return false;
        }
        let height = u64::from(self.height);
        let Some(row) = self.rows.place_of(pos % height) else {
            return false;
        };
        let Some(col) = self.cols.place_of(pos / height) else {
            return false;
        };
        self.part.keeps(Place { row, col })
    }

    /// The position in the array of the first of `count` elements that a column keeps, whose number is from 0. It
    /// is 0 where there are none.
    fn first_in(&self, j: u32, count: u32) -> u64
        requires view { IsView self.now }
        requires within { j < self.now.cols.count }
        requires count { count ≡ row_count self.now.part self.now.rows.count (j + 1) }
        ensures none { count ≡ 0 → result ≡ 0 }
        ensures some { 0 < count → result ≡ position self.now (first_row self.now.part (j + 1)) (j + 1) }
    {
        if count == 0 {
            return 0;
        }
        self.position(Place {
            row: self.part.first_row(j),
            col: u64::from(j) + 1,
        })
    }

    /// The place of an element in the view, by its place in the view's order, from 0.
    fn place_at(&self, i: u64) -> Place
        requires view { IsView self.now }
        requires within { i < length (index_list self.now) }
        ensures row { (1 ≤ result.row) × (result.row ≤ self.now.rows.count) }
        ensures col { (1 ≤ result.col) × (result.col ≤ self.now.cols.count) }
        ensures position { position self.now result.row result.col ≡ slice_index (index_list self.now) i }
    {
        self.part.place_at(i, self.rows.count)
    }

    /// The position in the array of the element at a place.
    fn position(&self, place: Place) -> u64
        requires view { IsView self.now }
        requires row { (1 ≤ place.row) × (place.row ≤ self.now.rows.count) }
        requires col { (1 ≤ place.col) × (place.col ≤ self.now.cols.count) }
        ensures value { result ≡ position self.now place.row place.col }
        ensures inside { (shape : Shape) → IsViewOf shape self.now → result < shape.rows * shape.cols }
    {
        let row = self.rows.index_at(place.row);
        let col = self.cols.index_at(place.col);
        col * u64::from(self.height) + row
    }
}
