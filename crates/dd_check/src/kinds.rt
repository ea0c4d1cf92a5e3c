//! The first kind of fault that holds of a statement.
ghost use Rattle.std.specs.Prelude.{◌≡◌, ℕ, ℤ, IfOk, All, List, MatchOption, MatchResult, Option};
ghost use Rattle.dd_kernels.specs.Names.{name_of};
ghost use Rattle.dd_kernels.specs.Shapes.{ShapesFit};
ghost use Rattle.dd_blocks.specs.Tasks.{shapes_in};
ghost use Rattle.dd_script.specs.declared.statement.Statement.TheVariants.{Task};
ghost use Rattle.dd_check.specs.Above.{Above};
ghost use Rattle.dd_check.specs.Arguments.{IsTaskOf};
ghost use Rattle.dd_check.specs.Chain.{IsFound, IsFoundOr, argument_kinds, name_kinds, view_kinds};
ghost use Rattle.dd_check.specs.Drafts.{IsSoundDraft, above_of};
ghost use Rattle.dd_check.specs.Faults.{AreClear, IsFirstOf};
ghost use Rattle.dd_check.specs.Rows.{AreAccesses};
ghost use Rattle.dd_check.specs.Seen.{AreSeen, IsKnown};

use crate::accesses::{accesses_of, has_bad_range, has_no_square, shapes_of};
use crate::arguments::{given, has_right_count, has_right_modes, wanted};
use crate::context::{has_no_proc, is_late};
use crate::draft::Draft;
use crate::edges::has_bad_shape;
use crate::fault::{AcceptFault, Fault};
use crate::kind::Kind;
use crate::lookup::{has_taken_name, has_unknown_name};
use dd_blocks::{AccessRow, Name};
use dd_kernels::{Kernel, kernel_named, shapes_fit};
use dd_script::{Piece, Statement};
use std::alloc::Global;

/// The first of the kinds on names, the machine and edges.
pub(crate) fn name_kind(draft: &Draft, x: &Statement) -> Option<Kind>
    requires { IsSoundDraft draft.now }
    ensures { MatchOption result
        ((n : ℕ) → AreClear n (above_of draft.now) x.now name_kinds)
        (λ kind. (n : ℕ) → IsFirstOf n (above_of draft.now) x.now name_kinds (record { line = n; kind = kind; a = 0; b = 0 })) }
{
    if has_unknown_name(draft, x) {
        return Some(Kind::UnknownName);
    }
    if has_taken_name(draft, x) {
        return Some(Kind::NameTaken);
    }
    if is_late(draft, x) {
        return Some(Kind::LateMachine);
    }
    if has_no_proc(draft, x) {
        return Some(Kind::NoProc);
    }
    if has_bad_shape(x) {
        return Some(Kind::BadShape);
    }
    None
}

/// The first of the kinds on a kernel and its arguments, or the kernel.
pub(crate) fn kernel_of(
    line: u32,
    kernel: &Name,
    scalar: Option<i64>,
    pieces: &[Piece],
) -> Result<Kernel, Fault>
    ensures { (s : Above) → MatchResult result
        (λ k. IsTaskOf line s kernel.now scalar pieces.now k)
        (IsFound line s (Task kernel.now scalar pieces.now) argument_kinds) }
{
    let Some(k) = kernel_named(kernel.as_bytes()) else {
        return Err(Fault::plain(line, Kind::UnknownKernel));
    };
    if !has_right_count(k, scalar, pieces) {
        return Err(Fault {
            line,
            kind: Kind::ArgCount,
            a: given(scalar, pieces),
            b: wanted(k),
        });
    }
    if !has_right_modes(k, pieces) {
        return Err(Fault::plain(line, Kind::BadAccess));
    }
    Ok(k)
}

/// The first of the kinds on the views of a task, or its accesses.
pub(crate) fn accesses_by(
    alloc: Global,
    draft: &Draft,
    line: u32,
    k: Kernel,
    pieces: &[Piece],
) -> Result<Vec<AccessRow>, AcceptFault>
    requires sound { IsSoundDraft draft.now }
    requires known { All (IsKnown (above_of draft.now)) pieces.now }
    ensures accesses { IfOk result (λ accesses. AreAccesses (above_of draft.now) pieces.now accesses.items) }
    ensures seen { IfOk result (λ accesses. AreSeen draft.now.plan accesses.items) }
    ensures shapes { IfOk result (λ accesses. ShapesFit k (shapes_in accesses.items)) }
    ensures kinds { (word : List ℕ) (scalar : Option ℤ) → word ≡ name_of k → MatchResult result
        (λ _. AreClear line (above_of draft.now) (Task word scalar pieces.now) view_kinds)
        (λ e. IsFoundOr e line (above_of draft.now) (Task word scalar pieces.now) view_kinds) }
{
    if has_bad_range(draft, pieces) {
        return Err(AcceptFault::Script(Fault::plain(line, Kind::BadRange)));
    }
    if has_no_square(draft, pieces) {
        return Err(AcceptFault::Script(Fault::plain(line, Kind::NotSquare)));
    }
    let accesses = accesses_of(alloc, draft, pieces)?;
    let shapes = shapes_of(alloc, &accesses)?;
    if !shapes_fit(k, &shapes) {
        return Err(AcceptFault::Script(Fault::plain(line, Kind::ShapeMismatch)));
    }
    Ok(accesses)
}
