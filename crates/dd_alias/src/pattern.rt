ghost use Rattle.std.specs.Prelude.{◌≡◌, ℕ, ◌↔◌};

use crate::columns::flip;
use dd_views::{Part, Span3, View};

/// The rows and columns of a view and the part of them that counts.
#[derive(Clone, Copy, Debug)]
pub struct Pattern {
    pub rows: Span3,
    pub cols: Span3,
    pub part: Part,
}

impl Pattern {
    ghost use Rattle.dd_alias.specs.Patterns.{HasElement, IsPattern, pattern_of};

    pub fn of(view: &View) -> Pattern
        ensures { result ≡ pattern_of view.now }
    {
        Pattern {
            rows: view.rows,
            cols: view.cols,
            part: view.part,
        }
    }

    /// Rows for columns and columns for rows.
    pub fn flipped(&self) -> Pattern
        requires { IsPattern self.now }
        ensures pattern { IsPattern result }
        ensures rows { result.rows ≡ self.now.cols }
        ensures cols { result.cols ≡ self.now.rows }
        ensures elements { (r : ℕ) → (c : ℕ) → HasElement result r c ↔ HasElement self.now c r }
    {
        Pattern {
            rows: self.cols,
            cols: self.rows,
            part: flip(self.part),
        }
    }
}
