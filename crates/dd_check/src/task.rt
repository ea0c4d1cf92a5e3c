//! The row of a task.
ghost use Rattle.std.specs.Prelude.{◌≡◌, ◌≤◌, ℕ, ℤ, pos, All, IfOk, List, Option, Some, length, unwrap_or};
ghost use Rattle.dd_kernels.specs.Names.{name_of};
ghost use Rattle.dd_blocks.specs.Numbered.{IsNumberIn};
ghost use Rattle.dd_script.specs.declared.piece.Piece.{Piece};
ghost use Rattle.dd_check.specs.Drafts.{IsSoundDraft, above_of};
ghost use Rattle.dd_check.specs.Rows.{AreAccesses, IsTask};
ghost use Rattle.dd_check.specs.Seen.{AreSeen};

use crate::draft::Draft;
use crate::opened::Opened;
use dd_blocks::{AccessRow, TaskRow};
use dd_kernels::Kernel;
use dd_place::place_by;
use dd_touch::{charge_of, touched_blocks};
use dd_views::Items;
use std::alloc::{AllocError, Global};

/// The row of a task of the region that is open, before the dependencies of the region are known.
pub(crate) fn task_row(
    alloc: Global,
    draft: &Draft,
    region: &Opened,
    line: u32,
    kernel: Kernel,
    scalar: i64,
    accesses: Vec<AccessRow>,
) -> Result<TaskRow, AllocError>
    requires sound { IsSoundDraft draft.now }
    requires opened { draft.now.opened ≡ Some region.now }
    requires few { length accesses.items ≤ 3 }
    requires accesses { AreSeen draft.now.plan accesses.items }
    ensures task { IfOk result (λ t. (word : List ℕ) (given : Option ℤ) (pieces : List Piece)
        → word ≡ name_of kernel → scalar ≡ unwrap_or given (pos 0) → AreAccesses (above_of draft.now) pieces accesses.items
        → IsTask line (above_of draft.now) word given pieces t) }
    ensures accesses { IfOk result (λ t. t.accesses ≡ accesses.items) }
    ensures kernel { IfOk result (λ t. t.kernel ≡ kernel) }
    ensures proc { IfOk result (λ t. IsNumberIn draft.now.plan.procs t.proc) }
    ensures blocks { IfOk result (λ t. All (IsNumberIn draft.now.plan.blocks) t.blocks) }
{
    let blocks = touched_blocks(alloc, &draft.plan, &accesses)?;
    let charge = charge_of(&draft.plan, &accesses, &blocks);
    let mut row = TaskRow {
        line,
        region: draft.regions + 1,
        kernel,
        scalar,
        accesses: Items::of(accesses),
        proc: 0,
        deps: Items::of(Vec::new(alloc)),
        blocks: Items::of(blocks),
        charge,
    };
    row.proc = place_by(&draft.plan, &draft.homes, &region.procs, &row);
    Ok(row)
}
