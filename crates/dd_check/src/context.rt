//! Where a statement may stand.
ghost use Rattle.std.specs.Prelude.{◌≡◌, ◌↔◌, IsTrue};
ghost use Rattle.dd_check.specs.Above.{is_machine};
ghost use Rattle.dd_check.specs.Drafts.{above_of};
ghost use Rattle.dd_check.specs.Kinds.{HasNoProc, IsLate, IsMisplaced};

use crate::draft::Draft;
use dd_script::Statement;

/// Whether the statement is one on the machine.
pub(crate) fn is_machine(x: &Statement) -> bool
    ensures { result ≡ is_machine x.now }
{
    matches!(
        x,
        Statement::Space { .. }
            | Statement::Proc { .. }
            | Statement::PolicyIs(_)
            | Statement::PlaceIs(_)
    )
}

/// Whether it is one on the machine below one of another kind.
pub(crate) fn is_late(draft: &Draft, x: &Statement) -> bool
    ensures { IsTrue result ↔ IsLate (above_of draft.now) x.now }
{
    is_machine(x) && draft.settled
}

/// Whether it is none on the machine, with a space above and no processor.
pub(crate) fn has_no_proc(draft: &Draft, x: &Statement) -> bool
    ensures { IsTrue result ↔ HasNoProc (above_of draft.now) x.now }
{
    !is_machine(x)
        && !draft.plan.spaces.as_slice().is_empty()
        && draft.plan.procs.as_slice().is_empty()
}

/// Whether it is a task or an end outside every region, or another statement inside one.
pub(crate) fn is_misplaced(draft: &Draft, x: &Statement) -> bool
    ensures { IsTrue result ↔ IsMisplaced (above_of draft.now) x.now }
{
    let stands_inside = matches!(x, Statement::Task { .. } | Statement::End);
    draft.opened.is_some() != stands_inside
}
