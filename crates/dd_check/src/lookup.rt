//! The names that a statement speaks of, and the one that it gives.
ghost use Rattle.std.specs.Prelude.{◌≡◌, ◌≢◌, ◌<◌, ◌≤◌, ◌↔◌, None, IsTrue, IfSome, length, position, unwrap_or};
ghost use Rattle.std.specs.Str.{bytes_eq};
ghost use Rattle.dd_blocks.specs.declared.proc_row.ProcRow.{ProcRow};
ghost use Rattle.dd_blocks.specs.declared.space_row.SpaceRow.{SpaceRow};
ghost use Rattle.dd_blocks.specs.Limits.{procs_limit, spaces_limit};
ghost use Rattle.dd_blocks.specs.Numbered.{IsNumberIn};
ghost use Rattle.dd_check.specs.Above.{array_named, proc_named, space_named};
ghost use Rattle.dd_check.specs.Drafts.{IsSoundDraft, above_of};
ghost use Rattle.dd_check.specs.Kinds.{HasTakenName, HasUnknownName};

use crate::draft::Draft;
use dd_blocks::{Name, Plan, ProcRow, SpaceRow};
use dd_script::Statement;

/// The place of the first space of that name, from 0.
fn space_at(spaces: &[SpaceRow], name: &[u8]) -> Option<usize>
    ensures value { result ≡ position (λ (row : SpaceRow). bytes_eq row.name name.now) spaces.now }
    ensures within { IfSome result (λ place. place < length spaces.now) }
{
    spaces.iter().position(|row| row.name.as_bytes() == name)
}

/// The place of the first processor of that name, from 0.
fn proc_at(procs: &[ProcRow], name: &[u8]) -> Option<usize>
    ensures value { result ≡ position (λ (row : ProcRow). bytes_eq row.name name.now) procs.now }
    ensures within { IfSome result (λ place. place < length procs.now) }
{
    procs.iter().position(|row| row.name.as_bytes() == name)
}

/// The number of the space of that name.
pub(crate) fn space_named(plan: &Plan, name: &Name) -> Option<u32>
    requires { length plan.now.spaces ≤ spaces_limit }
    ensures value { result ≡ space_named plan.now name.now }
    ensures within { IfSome result (IsNumberIn plan.now.spaces) }
{
    match space_at(plan.spaces.as_slice(), name.as_bytes()) {
        Some(place) => Some(place as u32 + 1),
        None => None,
    }
}

/// The number of the space of a name that is there.
pub(crate) fn space_of(plan: &Plan, name: &Name) -> u32
    requires few { length plan.now.spaces ≤ spaces_limit }
    requires known { space_named plan.now name.now ≢ None }
    ensures value { result ≡ unwrap_or (space_named plan.now name.now) 0 }
    ensures within { IsNumberIn plan.now.spaces result }
{
    match space_named(plan, name) {
        Some(space) => space,
        None => unreachable!(),
    }
}

/// The number of the processor of that name.
pub(crate) fn proc_named(plan: &Plan, name: &Name) -> Option<u32>
    requires { length plan.now.procs ≤ procs_limit }
    ensures { result ≡ proc_named plan.now name.now }
{
    match proc_at(plan.procs.as_slice(), name.as_bytes()) {
        Some(place) => Some(place as u32 + 1),
        None => None,
    }
}

/// Whether no array has the name.
fn is_free(draft: &Draft, name: &Name) -> bool
    ensures { IsTrue result ↔ (array_named (above_of draft.now) name.now ≡ None) }
{
    draft.names.array(name.as_bytes()).is_none()
}

/// Whether a space or an array that the statement names is not there.
pub(crate) fn has_unknown_name(draft: &Draft, x: &Statement) -> bool
    requires { IsSoundDraft draft.now }
    ensures { IsTrue result ↔ HasUnknownName (above_of draft.now) x.now }
{
    match x {
        Statement::Proc { space, .. } => space_named(&draft.plan, space).is_none(),
        Statement::Same { old, .. } => is_free(draft, old),
        Statement::Drop(name) | Statement::Print(name) | Statement::Sum(name) => {
            is_free(draft, name)
        }
        Statement::MoveTo { name, space } => {
            is_free(draft, name) || space_named(&draft.plan, space).is_none()
        }
        Statement::Task { pieces, .. } => {
            pieces
                .as_slice()
                .iter()
                .any(|piece| is_free(draft, &piece.name))
        }
        _ => false,
    }
}

/// Whether the name that the statement gives is taken.
pub(crate) fn has_taken_name(draft: &Draft, x: &Statement) -> bool
    requires { IsSoundDraft draft.now }
    ensures { IsTrue result ↔ HasTakenName (above_of draft.now) x.now }
{
    match x {
        Statement::Space { name, .. } => space_named(&draft.plan, name).is_some(),
        Statement::Proc { name, .. } => proc_named(&draft.plan, name).is_some(),
        Statement::Array { name, .. } | Statement::Same { name, .. } => !is_free(draft, name),
        _ => false,
    }
}
