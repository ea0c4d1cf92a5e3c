ghost use Rattle.std.specs.Prelude.{◌≡◌, ◌↔◌, ◌⊎◌, ℕ, ◌^◌, ◌<◌, true, Contains, IsTrue, MatchOption};
ghost use Rattle.dd_views.specs.declared.shape.Shape.{Shape};
ghost use Rattle.dd_views.specs.IndexList.{index_list};
ghost use Rattle.dd_views.specs.Views.{IsView};
ghost use Rattle.dd_blocks.specs.Elements.{writes};
ghost use Rattle.dd_alias.specs.Clashes.{Clash};
ghost use Rattle.dd_alias.specs.Intervals.{IsBound};
ghost use Rattle.dd_alias.specs.Patterns.{IsSolid};

use crate::interval::Interval;
use crate::meeting::{is_solid, overlap};
use crate::place::bounds;
use dd_blocks::AccessRow;
use dd_views::View;

/// An access of a task, and between which rows and columns its elements stand: what tells at a glance that most accesses
/// don't clash.
#[derive(Clone, Copy, Debug)]
pub struct Extent<'a> {
    pub access: &'a AccessRow,
    /// The number of its task, from 1.
    pub task: u32,
    pub array: u32,
    /// How many leading bits of the number of places between the rows and columns are 0.
    pub spare: u32,
    pub rows: Interval,
    pub cols: Interval,
    /// Whether the task writes the elements.
    pub written: bool,
    /// Whether these are all elements between those rows and columns.
    pub solid: bool,
    ghost of_array: { array ≡ access.now.view.array },
    ghost between_rows: { IsBound access.now.view.rows rows },
    ghost between_cols: { IsBound access.now.view.cols cols },
    ghost high: { 0 < access.now.view.height },
    ghost small: { access.now.view.height < 2 ^ 63 },
    ghost some_rows: { 0 < access.now.view.rows.count },
    ghost some_cols: { 0 < access.now.view.cols.count },
    ghost as_used: { written ≡ writes access.now.mode },
    ghost whole: { IsTrue solid → IsSolid access.now.view },
}

impl<'a> Extent<'a> {
    ghost use Rattle.dd_alias.specs.Extents.{AreShown, ClashesWithOne, Face, IsShown};

    /// The extent of an access. There is none only where the access has no elements.
    pub fn of(task: u32, access: &'a AccessRow) -> Option<Extent<'a>>
        requires { IsView access.now.view }
        ensures { MatchOption result
            ((x : ℕ) → Contains (index_list access.now.view) x → ⊥)
            (λ extent. (extent.task ≡ task) × (extent.access.now ≡ access.now)) }
    {
        if !has_rows_and_cols(&access.view) {
            return None;
        }
        let rows = bounds(&access.view.rows);
        let cols = bounds(&access.view.cols);
        Some(Extent {
            access,
            task,
            array: access.view.array,
            spare: rows.count().saturating_mul(cols.count()).leading_zeros(),
            rows,
            cols,
            written: access.writes(),
            solid: is_solid(&access.view),
        })
    }

    /// What stands near each other in this order is of about one size, and mostly near each other.
    pub fn order(&self) -> (u32, u32, u64, u64) {
        (self.array, self.spare, self.cols.low, self.rows.low)
    }

    /// Whether the accesses share an element, and one of them writes. Most don't at a glance, and two that have all
    /// elements between their rows and columns do at a glance.
    pub fn clashes(&self, other: &Extent) -> bool
        requires { (shape_at : ℕ → Shape) × IsShown shape_at self.now × IsShown shape_at other.now }
        ensures { IsTrue result ↔ Clash self.now.access.now other.now.access.now }
    {
        if !self.is_written_with(other) {
            return false;
        }
        if !self.faces(other) {
            return false;
        }
        if self.solid && other.solid {
            return true;
        }
        overlap(&self.access.view, &other.access.view)
    }

    /// Whether some of the others clashes.
    pub fn clashes_with_one(&self, others: &[Extent]) -> bool
        requires { (shape_at : ℕ → Shape) × IsShown shape_at self.now × AreShown shape_at others.now }
        ensures { IsTrue result ↔ ClashesWithOne self.now others.now }
    {
        for other in others {
            if self.clashes(other) {
                return true;
            }
        }
        false
    }

    /// Whether one of both tasks writes its elements.
    fn is_written_with(&self, other: &Extent) -> bool
        ensures { IsTrue result ↔ ((writes self.now.access.now.mode ≡ true) ⊎ (writes other.now.access.now.mode ≡ true)) }
    {
        self.written || other.written
    }

    /// Whether some place of the array is between the rows and columns of both.
    fn faces(&self, other: &Extent) -> bool
        ensures { IsTrue result ↔ Face self.now other.now }
    {
        if self.array != other.array {
            return false;
        }
        if !self.cols.meets(&other.cols) {
            return false;
        }
        self.rows.meets(&other.rows)
    }
}

/// Whether the view has rows and columns. Where it has none, it has no elements.
fn has_rows_and_cols(view: &View) -> bool
    requires { IsView view.now }
    ensures high { IsTrue result → 0 < view.now.height }
    ensures rows { IsTrue result → 0 < view.now.rows.count }
    ensures cols { IsTrue result → 0 < view.now.cols.count }
    ensures none { ¬ IsTrue result → (x : ℕ) → Contains (index_list view.now) x → ⊥ }
{
    if view.height == 0 {
        return false;
    }
    if view.rows.count == 0 {
        return false;
    }
    view.cols.count > 0
}
