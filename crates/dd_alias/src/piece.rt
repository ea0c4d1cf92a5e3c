//! Pieces of a list of extents.
ghost use Rattle.std.specs.Prelude.{◌≡◌, IfOk};
ghost use Rattle.dd_alias.specs.Steps.{extents_in};

use crate::extent::Extent;
use dd_views::Items;
use std::alloc::{AllocError, Global};

/// How many extents stand in a piece.
pub const PIECE_EXTENTS: usize = 8;

/// The extents in pieces, the last of which may be shorter.
pub fn cut<'a>(alloc: Global, extents: &[Extent<'a>]) -> Result<Vec<Items<Extent<'a>>>, AllocError>
    ensures { IfOk result (λ pieces. extents_in pieces.items ≡ extents.now) }
{
    let mut pieces = Vec::new(alloc);
    let mut first = 0usize;
    while first < extents.len() {
        let end = first.saturating_add(PIECE_EXTENTS).min(extents.len());
        pieces.push(piece_of(alloc, &extents[first..end])?)?;
        first = end;
    }
    Ok(pieces)
}

/// A piece of its own.
fn piece_of<'a>(alloc: Global, extents: &[Extent<'a>]) -> Result<Items<Extent<'a>>, AllocError>
    ensures { IfOk result (λ piece. piece ≡ extents.now) }
{
    let mut piece = Vec::new(alloc);
    piece.extend_from_slice(extents)?;
    Ok(Items::of(piece))
}
