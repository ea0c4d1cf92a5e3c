//! Extents by where they stand, so that those that face another one are found without a look at each.
//!
//! The extents are sorted: by array, then by size, so that a wide one is no hindrance among small ones, then by column
//! and row. They are cut into pieces. The piece at a place, from 0, has a frame around itself and those behind it, as many
//! as the lowest bit of the place says:
//!
//! ```text
//! place    0  1  2  3  4  5  6  7  8 ..
//! frame    all
//!             1
//!                2--3
//!                   3
//!                      4-----------7
//! ```
//!
//! Who goes through them passes over all that stand in a frame that doesn't face what is sought for. That the frames are right
//! is all that answers rest on: the order only makes them small.
ghost use Rattle.std.specs.Prelude.{◌≡◌, ◌↔◌, ◌⊎◌, ℕ, Any, Contains, IfOk, IfSome, List, OnOk};
ghost use Rattle.std.specs.List.Sorted.{IsPermutation};
ghost use Rattle.dd_views.specs.declared.shape.Shape.{Shape};
ghost use Rattle.dd_alias.specs.declared.extent.Extent.{Extent};
ghost use Rattle.dd_alias.specs.Extents.{AreShown, IsShown};
ghost use Rattle.dd_alias.specs.Steps.{AreSteps, extents_in};
ghost use Rattle.dd_alias.specs.Waits.{AreWaits, IsBeforeOne};

use crate::extent::Extent;
use crate::piece::cut;
use crate::step::Step;
use dd_views::Items;
use std::alloc::{AllocError, Global};
use std::marker::Model;

/// Extents in an order of their own. Contracts see them as a list.
#[derive(Debug, Drop)]
pub struct Index<'a> {
    pieces: Vec<Items<Extent<'a>>>,
    steps: Vec<Step>,
}

impl<'a> Model for Index<'a> {
    ghost Value = { List Extent };

    ghost view = { λ s. extents_in s.pieces.items };

    ghost invariant = { λ s. AreSteps s.pieces.items s.steps.items };
}

impl<'a> Index<'a> {
    pub fn of(alloc: Global, extents: &[Extent<'a>]) -> Result<Index<'a>, AllocError>
        ensures { IfOk result (λ index. IsPermutation extents.now index) }
    {
        let mut sorted = Vec::new(alloc);
        sorted.extend_from_slice(extents)?;
        sorted.sort_unstable_by_key(|extent: &Extent| extent.order());
        let pieces = cut(alloc, &sorted)?;
        let steps = steps_of(alloc, pieces.as_slice())?;
        Ok(Index { pieces, steps })
    }

    /// The numbers of the tasks here that one must wait for, by its own extents and its number, as often as they are
    /// found. Where more than so many pieces must be looked at, there is no answer.
    pub fn waits(
        &self,
        alloc: Global,
        own: &[Extent],
        number: u32,
        limit: usize,
    ) -> Result<Option<Vec<u32>>, AllocError>
        requires { (shape_at : ℕ → Shape) × AreShown shape_at self.now × AreShown shape_at own.now }
        ensures { IfOk result (λ answer. IfSome answer (λ found. AreWaits self.now own.now number found.items)) }
    {
        let mut found = Vec::new(alloc);
        let mut left = limit;
        for extent in own {
            let Some(rest) = self.add_waits(extent, number, left, &mut found)? else {
                return Ok(None);
            };
            left = rest;
        }
        Ok(Some(found))
    }

    /// Adds those of one of its own extents. The answer is how many more may be looked at.
    #[inline(never)]
    fn add_waits(
        &self,
        own: &Extent,
        number: u32,
        limit: usize,
        found: &mut Vec<u32>,
    ) -> Result<Option<usize>, AllocError>
        requires { (shape_at : ℕ → Shape) × AreShown shape_at self.now × IsShown shape_at own.now }
        ensures { IfOk result (λ answer. IfSome answer (λ left. (u : ℕ)
            → Contains found.new.items u ↔ (Contains found.old.items u ⊎ Any (λ (e : Extent). IsBeforeOne own.now number u e) self.now))) }
    {
        let mut left = limit;
        let mut place = 0;
        while place < self.steps.len() {
            let step = &self.steps[place];
            if !step.frame.faces(own) {
                place = step.next;
                continue;
            }
            if !step.own.faces(own) {
                place += 1;
                continue;
            }
            if left == 0 {
                return Ok(None);
            }
            left -= 1;
            add_waits_in(self.pieces[place].as_slice(), own, number, found)?;
            place += 1;
        }
        Ok(Some(left))
    }
}

/// Adds those that are found in a piece.
fn add_waits_in(
    piece: &[Extent],
    own: &Extent,
    number: u32,
    found: &mut Vec<u32>,
) -> Result<(), AllocError>
    requires { (shape_at : ℕ → Shape) × AreShown shape_at piece.now × IsShown shape_at own.now }
    ensures { OnOk result ((u : ℕ) → Contains found.new.items u ↔ (Contains found.old.items u ⊎ Any (λ (e : Extent). IsBeforeOne own.now number u e) piece.now)) }
{
    for extent in piece {
        if extent.task >= number {
            continue;
        }
        if extent.clashes(own) {
            found.push(extent.task)?;
        }
    }
    Ok(())
}

/// The steps of some pieces.
fn steps_of(alloc: Global, pieces: &[Items<Extent>]) -> Result<Vec<Step>, AllocError>
    ensures { IfOk result (λ steps. AreSteps pieces.now steps.items) }
{
    let mut steps = Vec::with_capacity(alloc, pieces.len())?;
    for place in 0..pieces.len() {
        steps.push(Step::at(pieces, place))?;
    }
    Ok(steps)
}
