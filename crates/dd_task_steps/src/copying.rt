//! Where needed elements are copied, and a copy is lent for them.
ghost use Rattle.std.specs.Prelude.{◌≡◌, ◌≤◌, ◌<◌, ◌+◌, ◌^◌, length, slice_index};
ghost use Rattle.dd_blocks.specs.WellFormed.{IsWellFormed};
ghost use Rattle.dd_copies.specs.CopyTables.{seen};
ghost use Rattle.dd_machine.specs.declared.event.Event.TheVariants.{Lend};
ghost use Rattle.dd_machine.specs.Effects.{after, after_copy, copy_where};
ghost use Rattle.dd_machine.specs.Legal.{MayCopy, MayLend};
ghost use Rattle.dd_machine.specs.Sound.{IsSound};
ghost use Rattle.dd_machine.specs.Tests.{versions_of};
ghost use Rattle.dd_machine.specs.Words.{IsOneOf, blocks, element, size, tasks};
ghost use Rattle.dd_tables.specs.Fetches.{is_fetched};
ghost use Rattle.dd_tables.specs.Sized.{IsSized};
ghost use Rattle.dd_tables.specs.Tables.{state_of};
ghost use Rattle.dd_task_steps.specs.Written.{HasPlaces};

use dd_blocks::Plan;
use dd_changes::{give_back, set_copy, set_state, take_copy};
use dd_copies::BlockCopy;
use dd_machine::CopyState;
use dd_tables::Tables;

/// A copy is lent to a task that needs some of it, or for 0 to the write-back.
pub fn lend(plan: &Plan, tables: &mut Tables, task: u32, block: u32, source: u32)
    requires sized { IsSized plan.now tables.old }
    requires may { MayLend plan.now (state_of plan.now tables.old) task block source }
    ensures value { state_of plan.now tables.new ≡ after plan.now (state_of plan.now tables.old) (Lend task block source) }
    ensures sized { IsSized plan.now tables.new }
{
    set_state(plan, tables, source, block, CopyState::Lent(task));
}

/// The elements that a task, or for 0 the write-back, needs from the copy in `source`, so many, come to its own copy. A copy
/// that was lent for them is in its slot again.
pub fn copy(plan: &Plan, tables: &mut Tables, task: u32, block: u32, source: u32, count: u64)
    requires well { IsWellFormed plan.now }
    requires sized { IsSized plan.now tables.old }
    requires sound { IsSound plan.now (state_of plan.now tables.old) }
    requires may { MayCopy plan.now (state_of plan.now tables.old) task block source count }
    ensures value { state_of plan.now tables.new ≡ after_copy plan.now (state_of plan.now tables.old) task block source count }
    ensures sized { IsSized plan.now tables.new }
{
    let own = tables.own_space(plan, task, block);
    let old = take_copy(plan, tables, own, block);
    let new = fetched(plan, tables, old, task, block, source);
    give_back(plan, tables, source, block);
    set_copy(plan, tables, own, block, new);
    tables.moved += count;
}

/// A copy with the elements that are needed from a space.
fn fetched(
    plan: &Plan,
    tables: &Tables,
    cell: Option<BlockCopy>,
    task: u32,
    block: u32,
    source: u32,
) -> Option<BlockCopy>
    requires well { IsWellFormed plan.now }
    requires sized { IsSized plan.now tables.now }
    requires task { task ≤ tasks plan.now }
    requires block { IsOneOf (blocks plan.now) block }
    requires places { HasPlaces plan.now block (seen cell) }
    ensures { seen result
        ≡ copy_where (λ i. is_fetched plan.now (state_of plan.now tables.now) task block source i (slice_index (versions_of (seen cell)) i))
        (λ i. (state_of plan.now tables.now).current (element plan.now block i)) (seen cell) }
{
    let mut copy = cell?;
    tables.fetch_versions(plan, &mut copy.versions, task, block, source);
    Some(copy)
}
