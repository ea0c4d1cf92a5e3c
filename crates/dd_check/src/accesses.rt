//! The accesses that the pieces of a task say.
ghost use Rattle.std.specs.Prelude.{◌≡◌, ◌↔◌, IsTrue, IfOk, IfSome, IsSome, All, Any};
ghost use Rattle.dd_views.specs.Views.{IsViewOf, Shows};
ghost use Rattle.dd_blocks.specs.Numbered.{IsNumberIn};
ghost use Rattle.dd_blocks.specs.Tasks.{shapes_in};
ghost use Rattle.dd_blocks.specs.declared.access_row.AccessRow.{AccessRow};
ghost use Rattle.dd_check.specs.Drafts.{IsSoundDraft, above_of};
ghost use Rattle.dd_check.specs.Rows.{AreAccesses, IsAccess, array_of, shape_of_array};
ghost use Rattle.dd_check.specs.Seen.{AreSeen, IsKnown, IsSeen, IsSmallView, SaysBadRange, SaysNoSquare};

use crate::array::{array_of, grid_at};
use crate::draft::Draft;
use dd_blocks::AccessRow;
use dd_kernels::Shape as KernelShape;
use dd_script::Piece;
use dd_views::{Shape, View, ViewFault, view_of};
use std::alloc::{AllocError, Global};

/// The view that a piece says.
fn view(draft: &Draft, piece: &Piece) -> Result<View, ViewFault>
    requires sound { IsSoundDraft draft.now }
    requires known { IsKnown (above_of draft.now) piece.now }
    ensures ok { IfOk result (Shows (array_of (above_of draft.now) piece.now) (shape_of_array (above_of draft.now) piece.now) piece.now.rows piece.now.cols piece.now.part) }
    ensures view { IfOk result (IsViewOf (shape_of_array (above_of draft.now) piece.now)) }
    ensures array { IfOk result (λ v. IsNumberIn draft.now.plan.arrays v.array) }
    ensures bad_range { (result ≡ Err ViewFault.BadRange) ↔ SaysBadRange (above_of draft.now) piece.now }
    ensures not_square { (result ≡ Err ViewFault.NotSquare) ↔ ((¬ SaysBadRange (above_of draft.now) piece.now) × SaysNoSquare (above_of draft.now) piece.now) }
{
    let array = array_of(draft, &piece.name);
    let grid = grid_at(draft, array);
    let shape = Shape {
        rows: grid.rows,
        cols: grid.cols,
    };
    view_of(array, shape, piece.rows, piece.cols, piece.part)
}

/// Whether a range of the piece has the step 0 or leaves its array.
fn says_bad_range(draft: &Draft, piece: &Piece) -> bool
    requires sound { IsSoundDraft draft.now }
    requires known { IsKnown (above_of draft.now) piece.now }
    ensures { IsTrue result ↔ SaysBadRange (above_of draft.now) piece.now }
{
    match view(draft, piece) {
        Err(ViewFault::BadRange) => true,
        Err(ViewFault::NotSquare) => false,
        Ok(_) => false,
    }
}

/// Whether a part is asked of a view that isn't square, where no range is refused.
fn says_no_square(draft: &Draft, piece: &Piece) -> bool
    requires sound { IsSoundDraft draft.now }
    requires known { IsKnown (above_of draft.now) piece.now }
    requires ranges { ¬ SaysBadRange (above_of draft.now) piece.now }
    ensures { IsTrue result ↔ SaysNoSquare (above_of draft.now) piece.now }
{
    match view(draft, piece) {
        Err(ViewFault::NotSquare) => true,
        Err(ViewFault::BadRange) => false,
        Ok(_) => false,
    }
}

/// Whether a range of a piece has the step 0 or leaves its array.
pub(crate) fn has_bad_range(draft: &Draft, pieces: &[Piece]) -> bool
    requires sound { IsSoundDraft draft.now }
    requires known { All (IsKnown (above_of draft.now)) pieces.now }
    ensures { IsTrue result ↔ Any (SaysBadRange (above_of draft.now)) pieces.now }
{
    for piece in pieces {
        if says_bad_range(draft, piece) {
            return true;
        }
    }
    false
}

/// Whether a part is asked of a view that isn't square, where no range is refused.
pub(crate) fn has_no_square(draft: &Draft, pieces: &[Piece]) -> bool
    requires sound { IsSoundDraft draft.now }
    requires known { All (IsKnown (above_of draft.now)) pieces.now }
    requires ranges { ¬ Any (SaysBadRange (above_of draft.now)) pieces.now }
    ensures { IsTrue result ↔ Any (SaysNoSquare (above_of draft.now)) pieces.now }
{
    for piece in pieces {
        if says_no_square(draft, piece) {
            return true;
        }
    }
    false
}

/// The access of a piece that says a view.
fn access_of(draft: &Draft, piece: &Piece) -> Option<AccessRow>
    requires sound { IsSoundDraft draft.now }
    requires known { IsKnown (above_of draft.now) piece.now }
    requires ranges { ¬ SaysBadRange (above_of draft.now) piece.now }
    requires squares { ¬ SaysNoSquare (above_of draft.now) piece.now }
    ensures some { IsSome result }
    ensures access { IfSome result (IsAccess (above_of draft.now) piece.now) }
    ensures seen { IfSome result (IsSeen draft.now.plan) }
{
    match view(draft, piece) {
        Ok(view) => Some(AccessRow {
            view,
            mode: piece.mode,
        }),
        Err(_) => None,
    }
}

/// The accesses of a task whose pieces say views.
pub(crate) fn accesses_of(
    alloc: Global,
    draft: &Draft,
    pieces: &[Piece],
) -> Result<Vec<AccessRow>, AllocError>
    requires sound { IsSoundDraft draft.now }
    requires known { All (IsKnown (above_of draft.now)) pieces.now }
    requires ranges { ¬ Any (SaysBadRange (above_of draft.now)) pieces.now }
    requires squares { ¬ Any (SaysNoSquare (above_of draft.now)) pieces.now }
    ensures accesses { IfOk result (λ accesses. AreAccesses (above_of draft.now) pieces.now accesses.items) }
    ensures seen { IfOk result (λ accesses. AreSeen draft.now.plan accesses.items) }
{
    let mut accesses = Vec::with_capacity(alloc, pieces.len())?;
    for piece in pieces {
        if let Some(access) = access_of(draft, piece) {
            accesses.push(access)?;
        }
    }
    Ok(accesses)
}

/// The shapes of accesses, for a kernel.
pub(crate) fn shapes_of(
    alloc: Global,
    accesses: &[AccessRow],
) -> Result<Vec<KernelShape>, AllocError>
    requires { All (λ (a : AccessRow). IsSmallView a.view) accesses.now }
    ensures { IfOk result (λ shapes. shapes.items ≡ shapes_in accesses.now) }
{
    let mut shapes = Vec::with_capacity(alloc, accesses.len())?;
    for access in accesses {
        let shape = access.view.shape();
        shapes.push(KernelShape {
            rows: shape.rows,
            cols: shape.cols,
        })?;
    }
    Ok(shapes)
}
