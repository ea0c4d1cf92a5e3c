//! A second name for an array, and the end of a name.
ghost use Rattle.std.specs.Prelude.{◌≢◌, None, OnOk};
ghost use Rattle.dd_script.specs.declared.statement.Statement.TheVariants as statement;
ghost use Rattle.dd_check.specs.Above.{array_named};
ghost use Rattle.dd_check.specs.Drafts.{Counts, IsSoundDraft, above_of};
ghost use Rattle.dd_check.specs.Effects.{Enters};

use crate::array::array_of;
use crate::draft::Draft;
use crate::row::add_row;
use dd_blocks::{Name, What};
use std::alloc::{AllocError, Global};

/// A second name for an array.
pub(crate) fn add_name(
    alloc: Global,
    draft: &mut Draft,
    line: u32,
    name: &Name,
    first: &Name,
) -> Result<(), AllocError>
    requires sound { IsSoundDraft draft.old }
    requires known { array_named (above_of draft.old) first.now ≢ None }
    ensures entered { OnOk result (Enters line (above_of draft.old) (statement.Same name.now first.now) (above_of draft.new)) }
    ensures counts { OnOk result (Counts draft.new) }
{
    let array = array_of(draft, first);
    draft.names.put(alloc, name.as_bytes(), array)?;
    draft.counts[array as usize - 1] += 1;
    add_row(draft, line, What::Same(array))?;
    Ok(())
}

/// The end of a name.
pub(crate) fn drop_name(draft: &mut Draft, line: u32, name: &Name) -> Result<(), AllocError>
    requires sound { IsSoundDraft draft.old }
    requires known { array_named (above_of draft.old) name.now ≢ None }
    ensures entered { OnOk result (Enters line (above_of draft.old) (statement.Drop name.now) (above_of draft.new)) }
    ensures counts { OnOk result (Counts draft.new) }
{
    let array = array_of(draft, name);
    let left = draft.counts[array as usize - 1] - 1;
    draft.names.remove(name.as_bytes());
    draft.counts[array as usize - 1] = left;
    let last = left == 0;
    add_row(draft, line, What::Drop { array, last })?;
    Ok(())
}
