//! When an entry is legal.
ghost use Rattle.std.specs.Prelude.{◌≡◌, ◌↔◌, IsTrue, ℕ, Some};
ghost use Rattle.dd_blocks.specs.WellFormed.{IsWellFormed};
ghost use Rattle.dd_machine.specs.Legal.{Legal, May};
ghost use Rattle.dd_machine.specs.Words.{IsOneOf, blocks, spaces};
ghost use Rattle.dd_tables.specs.Sized.{IsSized};
ghost use Rattle.dd_tables.specs.Tables.{state_of};

use crate::asks::{may_ask, may_begin, may_free, may_put, may_rest, may_shift};
use crate::closing::may_close;
use crate::copying::{may_copy, may_lend};
use crate::holding::{may_hold, may_make};
use crate::running::{may_claim, may_finish};
use crate::spilling::{may_call, may_come, may_gone, may_pick};
use dd_blocks::Plan;
use dd_machine::{Entry, Event};
use dd_tables::Tables;

/// Whether an event is legal.
fn may(tables: &Tables, plan: &Plan, event: Event) -> bool
    requires well { IsWellFormed plan.now }
    requires sized { IsSized plan.now tables.now }
    requires pin { (s b : ℕ) → tables.now.pin ≡ Some (s, b) → IsOneOf (spaces plan.now) s × IsOneOf (blocks plan.now) b }
    ensures { IsTrue result ↔ May plan.now (state_of plan.now tables.now) event }
{
    match event {
        Event::Ask { space, block } => may_ask(tables, plan, space, block),
        Event::Rest => may_rest(tables, plan),
        Event::Put { block } => may_put(tables, plan, block),
        Event::Shift { block, space } => may_shift(tables, plan, block, space),
        Event::Free { space, block } => may_free(tables, plan, space, block),
        Event::Begin { region } => may_begin(tables, plan, region),
        Event::Hold { task } => may_hold(tables, plan, task),
        Event::Pick { space, block } => may_pick(tables, plan, space, block),
        Event::Gone { space, block } => may_gone(tables, plan, space, block),
        Event::Make { task, block } => may_make(tables, plan, task, block),
        Event::Call { space, block } => may_call(tables, plan, space, block),
        Event::Come { space, block } => may_come(tables, plan, space, block),
        Event::Lend {
            task,
            block,
            source,
        } => may_lend(tables, plan, task, block, source),
        Event::Copy {
            task,
            block,
            source,
            count,
        } => 1 <= task && may_copy(tables, plan, task, block, source, count),
        Event::Claim { task, worker } => may_claim(tables, plan, task, worker),
        Event::Finish { task } => may_finish(tables, task),
        Event::Back {
            block,
            source,
            count,
        } => may_copy(tables, plan, 0, block, source, count),
        Event::Close { region } => may_close(tables, plan, region),
    }
}

/// Whether an entry is legal: its event is, and it has the line of the next entry of the statements. It takes no memory.
pub fn legal(tables: &Tables, plan: &Plan, entry: Entry) -> bool
    requires well { IsWellFormed plan.now }
    requires sized { IsSized plan.now tables.now }
    requires pin { (s b : ℕ) → tables.now.pin ≡ Some (s, b) → IsOneOf (spaces plan.now) s × IsOneOf (blocks plan.now) b }
    ensures { IsTrue result ↔ Legal plan.now (state_of plan.now tables.now) entry }
{
    tables.line(plan) == Some(entry.line) && may(tables, plan, entry.event)
}
