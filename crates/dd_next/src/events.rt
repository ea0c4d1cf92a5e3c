//! The first of all.
ghost use Rattle.std.specs.Prelude.{◌≡◌, true, All, IfSome, IsNone};
ghost use Rattle.dd_blocks.specs.Numbered.{task_row};
ghost use Rattle.dd_blocks.specs.WellFormed.{IsWellFormed};
ghost use Rattle.dd_machine.specs.declared.event.Event.{Event as OneEvent};
ghost use Rattle.dd_machine.specs.declared.task_state.TaskState.TheVariants.{Held};
ghost use Rattle.dd_machine.specs.GoesOn.{LeadsHeldOn};
ghost use Rattle.dd_machine.specs.Legal.{May};
ghost use Rattle.dd_machine.specs.Sound.{IsSound};
ghost use Rattle.dd_machine.specs.Words.{IsOneOf, blocks, tasks};
ghost use Rattle.dd_next.specs.Candidates.{candidates, with_blocks};
ghost use Rattle.dd_next.specs.Claims.{is_claim};
ghost use Rattle.dd_next.specs.First.{IsFirstLegal};
ghost use Rattle.dd_tables.specs.Sized.{IsSized};
ghost use Rattle.dd_tables.specs.Tables.{state_of, tasks_of};

use crate::blocks::{first_call, first_make};
use crate::copies::{first_copy, first_lend};
use crate::picks::first_pick;
use dd_blocks::Plan;
use dd_machine::Event;
use dd_tables::Tables;
use dd_tables::rows::{place, task_row};

/// The first event that serves some blocks of a task.
fn first_with(tables: &Tables, plan: &Plan, task: u32, found: &[u32]) -> Option<Event>
    requires well { IsWellFormed plan.now }
    requires sized { IsSized plan.now tables.now }
    requires task { IsOneOf (tasks plan.now) task }
    requires held { tasks_of tables.now.tasks.items task ≡ Held }
    requires blocks { All (IsOneOf (blocks plan.now)) found.now }
    ensures { IsFirstLegal plan.now (state_of plan.now tables.now)
        (with_blocks plan.now (state_of plan.now tables.now) task found.now) result }
{
    if let Some(event) = first_make(tables, plan, task, found) {
        return Some(event);
    }
    if let Some(event) = first_call(tables, plan, place(plan, task), found) {
        return Some(event);
    }
    if let Some(event) = first_copy(tables, plan, task, found) {
        return Some(event);
    }
    first_lend(tables, plan, task, found)
}

/// The first of the candidates of a task.
fn first_of(tables: &Tables, plan: &Plan, task: u32) -> Option<Event>
    requires well { IsWellFormed plan.now }
    requires sized { IsSized plan.now tables.now }
    requires sound { IsSound plan.now (state_of plan.now tables.now) }
    requires task { IsOneOf (tasks plan.now) task }
    requires held { tasks_of tables.now.tasks.items task ≡ Held }
    ensures { IsFirstLegal plan.now (state_of plan.now tables.now)
        (candidates plan.now (state_of plan.now tables.now) task) result }
{
    match first_pick(tables, plan, place(plan, task)) {
        Some(event) => Some(event),
        None => first_with(tables, plan, task, task_row(plan, task).blocks.as_slice()),
    }
}

/// The event that leads a Held task on: the first legal one of its candidates. None comes exactly where nothing leads it on but
/// its Claim, if that is legal. It takes no memory.
pub fn next_for(tables: &Tables, plan: &Plan, task: u32) -> Option<Event>
    requires well { IsWellFormed plan.now }
    requires sized { IsSized plan.now tables.now }
    requires sound { IsSound plan.now (state_of plan.now tables.now) }
    requires held { (state_of plan.now tables.now).tasks task ≡ Held }
    ensures first { IsFirstLegal plan.now (state_of plan.now tables.now)
        (candidates plan.now (state_of plan.now tables.now) task) result }
    ensures leads { IfSome result (λ event. LeadsHeldOn plan.now (state_of plan.now tables.now) task event
        × May plan.now (state_of plan.now tables.now) event) }
    ensures none { IsNone result → (event : OneEvent) → LeadsHeldOn plan.now (state_of plan.now tables.now) task event
        → May plan.now (state_of plan.now tables.now) event → is_claim event ≡ true }
{
    first_of(tables, plan, task)
}
