//! Where a task starts and ends.
ghost use Rattle.std.specs.Prelude.{◌≡◌, ℕ, true, fold, if◌then◌else◌, All};
ghost use Rattle.dd_blocks.specs.WellFormed.{IsWellFormed};
ghost use Rattle.dd_blocks.specs.Elements.{Element};
ghost use Rattle.dd_copies.specs.CopyTables.{seen};
ghost use Rattle.dd_machine.specs.declared.event.Event.TheVariants.{Claim, Finish};
ghost use Rattle.dd_machine.specs.Effects.{after, copy_where};
ghost use Rattle.dd_machine.specs.Legal.{MayClaim};
ghost use Rattle.dd_machine.specs.Sound.{IsSound};
ghost use Rattle.dd_machine.specs.States.{at_copy, at_one};
ghost use Rattle.dd_machine.specs.Tests.{is_running};
ghost use Rattle.dd_machine.specs.Words.{IsOneOf, blocks, element, has_number, spaces, tasks, writes};
ghost use Rattle.dd_recency.specs.Recency.{to_front};
ghost use Rattle.dd_tables.specs.Sized.{IsSized};
ghost use Rattle.dd_tables.specs.Tables.{state_of};
ghost use Rattle.dd_task_steps.specs.Written.{HasPlaces, HavePlaces, written_in};

use dd_blocks::Plan;
use dd_changes::{front, set_copy, set_task, take_copy};
use dd_copies::BlockCopy;
use dd_machine::TaskState;
use dd_tables::rows::{place, task_row};
use dd_tables::{Tables, write_current, write_versions};

/// A task starts on a worker.
pub fn claim(plan: &Plan, tables: &mut Tables, task: u32, worker: u32)
    requires well { IsWellFormed plan.now }
    requires sized { IsSized plan.now tables.old }
    requires sound { IsSound plan.now (state_of plan.now tables.old) }
    requires may { MayClaim plan.now (state_of plan.now tables.old) task worker }
    ensures value { state_of plan.now tables.new ≡ after plan.now (state_of plan.now tables.old) (Claim task worker) }
    ensures sized { IsSized plan.now tables.new }
{
    set_task(plan, tables, task, TaskState::Running(worker));
}

/// A task ends: what it wrote is current, and its blocks were used last. It takes no memory.
pub fn finish(plan: &Plan, tables: &mut Tables, task: u32)
    requires well { IsWellFormed plan.now }
    requires sized { IsSized plan.now tables.old }
    requires sound { IsSound plan.now (state_of plan.now tables.old) }
    requires may { is_running ((state_of plan.now tables.old).tasks task) ≡ true }
    ensures value { state_of plan.now tables.new ≡ after plan.now (state_of plan.now tables.old) (Finish task) }
    ensures sized { IsSized plan.now tables.new }
{
    let space = place(plan, task);
    let touched = task_row(plan, task).blocks.as_slice();
    write_copies(plan, tables, task, space, touched);
    use_blocks(plan, tables, space, touched);
    make_current(plan, tables, task);
    set_task(plan, tables, task, TaskState::Done);
}

/// The elements of some blocks that a task writes take its number, in the copies of a space.
fn write_copies(plan: &Plan, tables: &mut Tables, task: u32, space: u32, found: &[u32])
    requires well { IsWellFormed plan.now }
    requires sized { IsSized plan.now tables.old }
    requires task { IsOneOf (tasks plan.now) task }
    requires space { IsOneOf (spaces plan.now) space }
    requires blocks { All (λ b. IsOneOf (blocks plan.now) b) found.now }
    requires places { HavePlaces plan.now (state_of plan.now tables.old) }
    ensures value { let st = state_of plan.now tables.old in
        state_of plan.now tables.new ≡ record st { copies = written_in plan.now st task space found.now } }
    ensures sized { IsSized plan.now tables.new }
{
    for block in found {
        write_copy(plan, tables, task, space, *block);
    }
}

/// The elements of a block that a task writes take its number, in the copy of a space.
fn write_copy(plan: &Plan, tables: &mut Tables, task: u32, space: u32, block: u32)
    requires well { IsWellFormed plan.now }
    requires sized { IsSized plan.now tables.old }
    requires task { IsOneOf (tasks plan.now) task }
    requires space { IsOneOf (spaces plan.now) space }
    requires block { IsOneOf (blocks plan.now) block }
    requires places { HasPlaces plan.now block ((state_of plan.now tables.old).copies space block) }
    ensures value { let st = state_of plan.now tables.old in
        state_of plan.now tables.new ≡ record st {
          copies = at_copy st.copies space block
              (copy_where (λ i. writes plan.now task (element plan.now block i)) (λ i. task) (st.copies space block));
        } }
    ensures sized { IsSized plan.now tables.new }
{
    let cell = written(plan, take_copy(plan, tables, space, block), task, block);
    set_copy(plan, tables, space, block, cell);
}

/// A copy with the elements that a task writes.
fn written(plan: &Plan, cell: Option<BlockCopy>, task: u32, block: u32) -> Option<BlockCopy>
    requires well { IsWellFormed plan.now }
    requires task { IsOneOf (tasks plan.now) task }
    requires block { IsOneOf (blocks plan.now) block }
    requires places { HasPlaces plan.now block (seen cell) }
    ensures { seen result
        ≡ copy_where (λ i. writes plan.now task (element plan.now block i)) (λ i. task) (seen cell) }
{
    let mut copy = cell?;
    write_versions(plan, &mut copy.versions, task, block);
    Some(copy)
}

/// Some blocks of a space are used, one after the other.
fn use_blocks(plan: &Plan, tables: &mut Tables, space: u32, found: &[u32])
    requires sized { IsSized plan.now tables.old }
    requires space { IsOneOf (spaces plan.now) space }
    requires there { (b : ℕ) → has_number found.now b ≡ true → has_number ((state_of plan.now tables.old).orders space) b ≡ true }
    ensures value { let st = state_of plan.now tables.old in
        state_of plan.now tables.new
        ≡ record st { orders = at_one st.orders space (fold (λ order b. to_front b order) (st.orders space) found.now) } }
    ensures sized { IsSized plan.now tables.new }
{
    for block in found {
        front(plan, tables, space, *block);
    }
}

/// The elements that a task writes have its number as their current version.
fn make_current(plan: &Plan, tables: &mut Tables, task: u32)
    requires well { IsWellFormed plan.now }
    requires sized { IsSized plan.now tables.old }
    requires task { IsOneOf (tasks plan.now) task }
    ensures value { let st = state_of plan.now tables.old in
        state_of plan.now tables.new
        ≡ record st { current = λ (e : Element). if writes plan.now task e then task else st.current e } }
    ensures sized { IsSized plan.now tables.new }
{
    write_current(plan, &mut tables.current, task);
}
