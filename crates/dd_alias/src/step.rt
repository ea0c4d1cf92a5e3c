ghost use Rattle.std.specs.Prelude.{ℕ, ◌<◌, ◌≤◌, List, length, slice_index_or};
ghost use Rattle.dd_alias.specs.declared.extent.Extent.{Extent};
ghost use Rattle.dd_alias.specs.Frames.{AreInside};

use crate::extent::Extent;
use crate::frame::Frame;
use dd_views::Items;

/// What may be passed over at once with a piece of an index.
#[derive(Clone, Copy, Debug)]
pub struct Step {
    /// Around the pieces from its own on, before the place `next`.
    pub frame: Frame,
    pub next: usize,
    /// Around its own piece.
    pub own: Frame,
}

impl Step {
    /// The step of the piece at a place.
    pub fn at(pieces: &[Items<Extent>], place: usize) -> Step
        requires { place < length pieces.now }
        ensures leads { place < result.next }
        ensures inside { (j : ℕ) (p : List Extent) → place ≤ j → j < result.next → j < length pieces.now → AreInside result.frame (slice_index_or pieces.now j p) }
        ensures own { (p : List Extent) → AreInside result.own (slice_index_or pieces.now place p) }
    {
        let next = next_of(place, pieces.len());
        Step {
            frame: Frame::around(&pieces[place..next]),
            next,
            own: Frame::around(&pieces[place..place + 1]),
        }
    }
}

/// Where the step at a place leads to: behind as many pieces as the lowest bit of the place says, and behind all from the
/// first. So one piece is found by about as many steps as the square of the number of bits.
fn next_of(place: usize, len: usize) -> usize
    requires { place < len }
    ensures leads { place < result }
    ensures within { result ≤ len }
{
    if place == 0 {
        return len;
    }
    let bit = place & place.wrapping_neg();
    place.saturating_add(bit.max(1)).min(len)
}
