//! Blocks that are too large for their homes.
ghost use Rattle.std.specs.Prelude.{◌≡◌, ◌≢◌, ◌*◌, ◌<◌, ◌≤◌, None, MatchOption, false, length, suc, true};
ghost use Rattle.dd_blocks.specs.declared.fill.Fill.{Fill};
ghost use Rattle.dd_blocks.specs.Grids.{IsGrid, block_count, block_size, element_count};
ghost use Rattle.dd_blocks.specs.Layout.{blocks_of_array};
ghost use Rattle.dd_blocks.specs.Limits.{edge_limit};
ghost use Rattle.dd_blocks.specs.Numbered.{IsNumberIn, space_row};
ghost use Rattle.dd_check.specs.Above.{array_named, is_machine, space_named};
ghost use Rattle.dd_check.specs.Chain.{name_kinds};
ghost use Rattle.dd_check.specs.Drafts.{IsSoundDraft, above_of};
ghost use Rattle.dd_check.specs.Faults.{AreClear, IsClear};
ghost use Rattle.dd_check.specs.Kinds.{HasLargeBlock, placed_blocks};
ghost use Rattle.dd_check.specs.BlockFit.{IsLargeFault};
ghost use Rattle.dd_check.specs.Rows.{next_array};

use crate::array::{array_of, grid_at};
use crate::draft::Draft;
use crate::edges::grid_of;
use crate::fault::Fault;
use crate::kind::Kind;
use crate::lookup::space_of;
use dd_blocks::{Grid, Name};
use dd_script::Statement;

/// What a block needs of its home, in bytes: a copy, and room to move it.
fn needed(grid: &Grid, block: u64) -> u64
    requires grid { IsGrid grid.now }
    requires small { element_count grid.now ≤ edge_limit * edge_limit }
    requires within { block < block_count grid.now }
    ensures { result ≡ 16 * block_size grid.now block }
{
    16 * grid.size(block)
}

/// The limit of a space, by its number.
fn limit_of(draft: &Draft, space: u32) -> u64
    requires { IsNumberIn draft.now.plan.spaces space }
    ensures { result ≡ (space_row draft.now.plan space).limit }
{
    draft.plan.space(space).limit
}

/// The fault of a block that needs more than there is.
fn large(line: u32, needed: u64, limit: u64) -> Fault
    ensures { result ≡ record { line = line; kind = Kind.BlockTooLarge; a = needed; b = limit } }
{
    Fault {
        line,
        kind: Kind::BlockTooLarge,
        a: needed,
        b: limit,
    }
}

/// The first block of an array that comes next which is too large for its first home.
fn large_at_first(draft: &Draft, line: u32, grid: &Grid) -> Option<Fault>
    requires sound { IsSoundDraft draft.now }
    requires spaces { 1 ≤ length draft.now.plan.spaces }
    requires grid { IsGrid grid.now }
    requires small { element_count grid.now ≤ edge_limit * edge_limit }
    ensures { (fill : Fill) → IsLargeFault draft.now.plan line
        (blocks_of_array (length draft.now.plan.spaces) (suc (length draft.now.plan.arrays)) (next_array draft.now.plan grid.now fill)) result }
{
    let before = draft.plan.blocks.as_slice().len() as u64;
    let spaces = draft.plan.spaces.as_slice().len() as u64;
    for block in 0..grid.blocks() {
        let limit = limit_of(draft, ((before + block) % spaces) as u32 + 1);
        let needed = needed(grid, block);
        if needed > limit {
            return Some(large(line, needed, limit));
        }
    }
    None
}

/// The first block of an array that is too large for the space to which it is moved. None is larger than the first.
fn large_at_target(draft: &Draft, line: u32, name: &Name, space: &Name) -> Option<Fault>
    requires sound { IsSoundDraft draft.now }
    requires array { array_named (above_of draft.now) name.now ≢ None }
    requires space { space_named draft.now.plan space.now ≢ None }
    ensures { IsLargeFault draft.now.plan line (placed_blocks (above_of draft.now) (Statement.MoveTo name.now space.now)) result }
{
    let grid = grid_at(draft, array_of(draft, name));
    let space = space_of(&draft.plan, space);
    let limit = limit_of(draft, space);
    let needed = needed(&grid, 0);
    if needed > limit {
        return Some(large(line, needed, limit));
    }
    None
}

/// The first block that is too large for where the statement puts it.
fn first_large(draft: &Draft, line: u32, x: &Statement) -> Option<Fault>
    requires sound { IsSoundDraft draft.now }
    requires clear { AreClear line (above_of draft.now) x.now name_kinds }
    requires settled { is_machine x.now ≡ false → draft.now.settled ≡ true }
    ensures { IsLargeFault draft.now.plan line (placed_blocks (above_of draft.now) x.now) result }
{
    match x {
        Statement::Array {
            rows,
            cols,
            brows,
            bcols,
            ..
        } => large_at_first(draft, line, &grid_of(*rows, *cols, *brows, *bcols)),
        Statement::MoveTo { name, space } => large_at_target(draft, line, name, space),
        _ => None,
    }
}

/// The fault of a block that is too large for where the statement puts it.
pub(crate) fn large_block(draft: &Draft, line: u32, x: &Statement) -> Option<Fault>
    requires sound { IsSoundDraft draft.now }
    requires clear { AreClear line (above_of draft.now) x.now name_kinds }
    requires settled { is_machine x.now ≡ false → draft.now.settled ≡ true }
    ensures { MatchOption result
        (IsClear line (above_of draft.now) x.now Kind.BlockTooLarge)
        (λ fault. (fault.line ≡ line) × (fault.kind ≡ Kind.BlockTooLarge) × HasLargeBlock (above_of draft.now) x.now fault.a fault.b) }
{
    first_large(draft, line, x)
}
