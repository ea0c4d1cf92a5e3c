//! One more row of the statements.
ghost use Rattle.std.specs.Prelude.{◌≡◌, OnOk};
ghost use Rattle.dd_blocks.specs.Numbered.{IsNumberIn};
ghost use Rattle.dd_check.specs.Ahead.{AsksAll, CountsAhead};
ghost use Rattle.dd_check.specs.Drafts.{Counts, IsSoundDraft, above_of};
ghost use Rattle.dd_check.specs.Effects.{add_row};

use crate::array::grid_at;
use crate::draft::Draft;
use dd_blocks::{StatementRow, What};
use std::alloc::AllocError;

/// Adds a row that is counted already.
pub(crate) fn add_row(draft: &mut Draft, line: u32, what: What) -> Result<(), AllocError>
    requires { CountsAhead draft.old what }
    ensures above { OnOk result (above_of draft.new ≡ add_row line what (above_of draft.old)) }
    ensures counts { OnOk result (Counts draft.new) }
{
    what.move_home(&mut draft.homes);
    draft.plan.statements.push(StatementRow { line, what })?;
    Ok(())
}

/// Adds the row of a statement that goes through all blocks of an array.
pub(crate) fn touch(draft: &mut Draft, line: u32, array: u32, what: What) -> Result<(), AllocError>
    requires sound { IsSoundDraft draft.old }
    requires within { IsNumberIn draft.old.plan.arrays array }
    requires asks { AsksAll what array }
    ensures above { OnOk result (above_of draft.new ≡ add_row line what (above_of draft.old)) }
    ensures counts { OnOk result (Counts draft.new) }
{
    draft.touches += grid_at(draft, array).blocks();
    add_row(draft, line, what)
}
