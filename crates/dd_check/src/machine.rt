//! The machine of a script that names none.
ghost use Rattle.std.specs.Prelude.{◌≡◌, ◌+◌, nat_eq, length, OnOk};
ghost use Rattle.dd_check.specs.Above.{settle, with_machine};
ghost use Rattle.dd_check.specs.Drafts.{Counts, above_of};
ghost use Rattle.dd_check.specs.Machines.{with_main};

use crate::draft::Draft;
use dd_blocks::{Name, Plan, ProcRow, SpaceRow};
use std::alloc::{AllocError, Global};

/// In bytes.
const MAIN_LIMIT: u64 = 1_073_741_824;

/// A statement that is not one on the machine stands here: a script that named no machine has one space and one
/// processor from here on.
pub(crate) fn settle(alloc: Global, draft: &mut Draft) -> Result<(), AllocError>
    requires { Counts draft.old }
    ensures above { OnOk result (above_of draft.new ≡ settle (above_of draft.old)) }
    ensures counts { OnOk result (Counts draft.new) }
{
    complete(alloc, &mut draft.plan)?;
    draft.settled = true;
    Ok(())
}

/// Adds a machine where there is none.
fn complete(alloc: Global, plan: &mut Plan) -> Result<(), AllocError>
    ensures { OnOk result (plan.new ≡ with_machine plan.old) }
{
    if has_no_machine(plan) {
        add_main(alloc, plan)?;
    }
    Ok(())
}

fn has_no_machine(plan: &Plan) -> bool
    ensures value { result ≡ nat_eq (length plan.now.spaces + length plan.now.procs) 0 }
{
    plan.spaces.as_slice().len() + plan.procs.as_slice().len() == 0
}

fn add_main(alloc: Global, plan: &mut Plan) -> Result<(), AllocError>
    requires { length plan.old.spaces + length plan.old.procs ≡ 0 }
    ensures { OnOk result (plan.new ≡ with_main plan.old) }
{
    let space = Name::of(alloc, b"main")?;
    let proc = Name::of(alloc, b"cpu")?;
    plan.spaces.push(SpaceRow {
        name: space,
        limit: MAIN_LIMIT,
    })?;
    plan.procs.push(ProcRow {
        name: proc,
        space: 1,
    })?;
    Ok(())
}
