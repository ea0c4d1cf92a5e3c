//! One more task of the region that is open.
ghost use Rattle.std.specs.Prelude.{◌≡◌, ◌≤◌, None, OnOk, length};
ghost use Rattle.dd_check.specs.Drafts.{IsSoundDraft, Counts, above_of};
ghost use Rattle.dd_check.specs.Effects.{add_task};
ghost use Rattle.dd_check.specs.Seen.{AreSeen};
ghost use Rattle.dd_check.specs.Sizes.{FitsIn};

use crate::draft::Draft;
use dd_blocks::TaskRow;
use dd_touch::access_elements;
use std::alloc::AllocError;

/// One more task of the region that is open.
pub(crate) fn push_task(draft: &mut Draft, row: TaskRow) -> Result<(), AllocError>
    requires sound { IsSoundDraft draft.old }
    requires opened { draft.old.opened ≡ None → ⊥ }
    requires few { length row.accesses ≤ 3 }
    requires seen { AreSeen draft.old.plan row.accesses }
    requires fits { FitsIn (above_of draft.old) row }
    ensures above { OnOk result (above_of draft.new ≡ add_task row (above_of draft.old)) }
    ensures counts { OnOk result (Counts draft.new) }
{
    if let Some(region) = &mut draft.opened {
        region.procs.push(row.proc)?;
        region.elements += access_elements(row.accesses.as_slice());
        region.touches += row.blocks.as_slice().len() as u64;
        region.tasks.push(row)?;
    }
    Ok(())
}
