//! The array that a name stands for.
ghost use Rattle.std.specs.Prelude.{◌≡◌, ◌≢◌, ◌≤◌, None};
ghost use Rattle.dd_blocks.specs.Grids.{IsGrid, element_count};
ghost use Rattle.dd_blocks.specs.Limits.{elements_limit};
ghost use Rattle.dd_blocks.specs.Numbered.{IsNumberIn, array_row};
ghost use Rattle.dd_check.specs.Above.{array_named};
ghost use Rattle.dd_check.specs.Drafts.{IsSoundDraft, above_of};
ghost use Rattle.dd_check.specs.Kinds.{array_of_name};

use crate::draft::Draft;
use dd_blocks::{Grid, Name};

/// The number of the array of a name that is there.
pub(crate) fn array_of(draft: &Draft, name: &Name) -> u32
    requires sound { IsSoundDraft draft.now }
    requires known { array_named (above_of draft.now) name.now ≢ None }
    ensures value { result ≡ array_of_name (above_of draft.now) name.now }
    ensures within { IsNumberIn draft.now.plan.arrays result }
{
    match draft.names.array(name.as_bytes()) {
        Some(array) => array,
        None => unreachable!(),
    }
}

/// The grid of an array, by its number.
pub(crate) fn grid_at(draft: &Draft, array: u32) -> Grid
    requires sound { IsSoundDraft draft.now }
    requires within { IsNumberIn draft.now.plan.arrays array }
    ensures value { result ≡ (array_row draft.now.plan array).grid }
    ensures grid { IsGrid result }
    ensures few { element_count result ≤ elements_limit }
{
    draft.plan.array(array).grid
}
