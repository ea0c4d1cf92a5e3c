//! What a task needs, copied from other copies of its blocks.
ghost use Rattle.std.specs.Prelude.{◌≡◌, All};
ghost use Rattle.dd_blocks.specs.WellFormed.{IsWellFormed};
ghost use Rattle.dd_machine.specs.declared.task_state.TaskState.TheVariants.{Held};
ghost use Rattle.dd_machine.specs.Words.{IsOneOf, blocks, spaces, tasks};
ghost use Rattle.dd_next.specs.Candidates.{copies, copies_of, copy_from, lends, lends_of};
ghost use Rattle.dd_next.specs.First.{IsFirstLegal};
ghost use Rattle.dd_tables.specs.Sized.{IsSized};
ghost use Rattle.dd_tables.specs.Tables.{state_of, tasks_of};

use dd_blocks::Plan;
use dd_legal::may_lend;
use dd_machine::Event;
use dd_tables::Tables;
use dd_tables::rows::place;

/// The copy of what a task needs of a block from a space, where both have it in memory and something is needed.
fn copy_from(tables: &Tables, plan: &Plan, task: u32, block: u32, source: u32) -> Option<Event>
    requires well { IsWellFormed plan.now }
    requires sized { IsSized plan.now tables.now }
    requires task { IsOneOf (tasks plan.now) task }
    requires held { tasks_of tables.now.tasks.items task ≡ Held }
    requires block { IsOneOf (blocks plan.now) block }
    requires source { IsOneOf (spaces plan.now) source }
    ensures { IsFirstLegal plan.now (state_of plan.now tables.now)
        (copy_from plan.now (state_of plan.now tables.now) task block source) result }
{
    if !tables.copies.is_here(source, block) {
        return None;
    }
    if !tables.copies.is_here(place(plan, task), block) {
        return None;
    }
    let count = tables.needed_len(plan, task, block, source);
    if count == 0 {
        return None;
    }
    Some(Event::Copy {
        task,
        block,
        source,
        count,
    })
}

/// From the first space where that is legal.
fn copy_of(tables: &Tables, plan: &Plan, task: u32, block: u32) -> Option<Event>
    requires well { IsWellFormed plan.now }
    requires sized { IsSized plan.now tables.now }
    requires task { IsOneOf (tasks plan.now) task }
    requires held { tasks_of tables.now.tasks.items task ≡ Held }
    requires block { IsOneOf (blocks plan.now) block }
    ensures { IsFirstLegal plan.now (state_of plan.now tables.now)
        (copies_of plan.now (state_of plan.now tables.now) task block) result }
{
    for i in 0..plan.spaces.as_slice().len() as u32 {
        match copy_from(tables, plan, task, block, i + 1) {
            Some(event) => return Some(event),
            None => {}
        }
    }
    None
}

/// Of the first of some blocks where that is legal.
pub(crate) fn first_copy(tables: &Tables, plan: &Plan, task: u32, found: &[u32]) -> Option<Event>
    requires well { IsWellFormed plan.now }
    requires sized { IsSized plan.now tables.now }
    requires task { IsOneOf (tasks plan.now) task }
    requires held { tasks_of tables.now.tasks.items task ≡ Held }
    requires blocks { All (IsOneOf (blocks plan.now)) found.now }
    ensures { IsFirstLegal plan.now (state_of plan.now tables.now)
        (copies plan.now (state_of plan.now tables.now) task found.now) result }
{
    for block in found {
        match copy_of(tables, plan, task, *block) {
            Some(event) => return Some(event),
            None => {}
        }
    }
    None
}

/// The first space whose copy of a block may be lent to a task.
fn lend_of(tables: &Tables, plan: &Plan, task: u32, block: u32) -> Option<Event>
    requires well { IsWellFormed plan.now }
    requires sized { IsSized plan.now tables.now }
    ensures { IsFirstLegal plan.now (state_of plan.now tables.now) (lends_of plan.now task block) result }
{
    for i in 0..plan.spaces.as_slice().len() as u32 {
        let source = i + 1;
        if may_lend(tables, plan, task, block, source) {
            return Some(Event::Lend {
                task,
                block,
                source,
            });
        }
    }
    None
}

/// Of the first of some blocks where there is one.
pub(crate) fn first_lend(tables: &Tables, plan: &Plan, task: u32, found: &[u32]) -> Option<Event>
    requires well { IsWellFormed plan.now }
    requires sized { IsSized plan.now tables.now }
    ensures { IsFirstLegal plan.now (state_of plan.now tables.now) (lends plan.now task found.now) result }
{
    for block in found {
        match lend_of(tables, plan, task, *block) {
            Some(event) => return Some(event),
            None => {}
        }
    }
    None
}
