//! What an event changes: those that may want memory, and those that don't.
ghost use Rattle.std.specs.Prelude.{◌≡◌, true, false, OnErr, OnOk};
ghost use Rattle.dd_blocks.specs.WellFormed.{IsWellFormed};
ghost use Rattle.dd_core.specs.Finals.{is_final};
ghost use Rattle.dd_machine.specs.Effects.{after};
ghost use Rattle.dd_machine.specs.Legal.{May};
ghost use Rattle.dd_machine.specs.Sound.{IsSound};
ghost use Rattle.dd_tables.specs.Sized.{IsSized};
ghost use Rattle.dd_tables.specs.Tables.{state_of};

use dd_blocks::Plan;
use dd_machine::Event;
use dd_row_steps::{ask, begin, close, free, put, rest, shift};
use dd_tables::Tables;
use dd_task_steps::{call, claim, come, copy, finish, gone, hold, lend, make, pick};
use std::alloc::AllocError;

/// Makes an event that isn't one of those of `end`.
///
/// # Errors
/// Want of memory. The tables stand for the state that they stood for.
pub(crate) fn advance(plan: &Plan, tables: &mut Tables, event: Event) -> Result<(), AllocError>
    requires well { IsWellFormed plan.now }
    requires sized { IsSized plan.now tables.old }
    requires sound { IsSound plan.now (state_of plan.now tables.old) }
    requires may { May plan.now (state_of plan.now tables.old) event }
    requires kind { is_final event ≡ false }
    ensures value { OnOk result
        (state_of plan.now tables.new ≡ after plan.now (state_of plan.now tables.old) event) }
    ensures sized { IsSized plan.now tables.new }
    ensures kept { OnErr result (state_of plan.now tables.new ≡ state_of plan.now tables.old) }
{
    match event {
        Event::Ask { space, block } => ask(plan, tables, space, block),
        Event::Put { block } => put(plan, tables, block)?,
        Event::Shift { block, space } => shift(plan, tables, block, space)?,
        Event::Begin { region } => begin(plan, tables, region),
        Event::Hold { task } => hold(plan, tables, task),
        Event::Make { task, block } => make(plan, tables, task, block)?,
        Event::Call { space, block } => call(plan, tables, space, block),
        Event::Come { space, block } => come(plan, tables, space, block)?,
        Event::Lend {
            task,
            block,
            source,
        } => lend(plan, tables, task, block, source),
        Event::Copy {
            task,
            block,
            source,
            count,
        } => copy(plan, tables, task, block, source, count),
        Event::Claim { task, worker } => claim(plan, tables, task, worker),
        Event::Back {
            block,
            source,
            count,
        } => copy(plan, tables, 0, block, source, count),
        Event::Rest
        | Event::Free { .. }
        | Event::Pick { .. }
        | Event::Gone { .. }
        | Event::Finish { .. }
        | Event::Close { .. } => unreachable!(),
    }
    Ok(())
}

/// Makes an event that takes no memory.
pub(crate) fn end(plan: &Plan, tables: &mut Tables, event: Event)
    requires well { IsWellFormed plan.now }
    requires sized { IsSized plan.now tables.old }
    requires sound { IsSound plan.now (state_of plan.now tables.old) }
    requires may { May plan.now (state_of plan.now tables.old) event }
    requires kind { is_final event ≡ true }
    ensures value { state_of plan.now tables.new ≡ after plan.now (state_of plan.now tables.old) event }
    ensures sized { IsSized plan.now tables.new }
{
    match event {
        Event::Rest => rest(plan, tables),
        Event::Free { space, block } => free(plan, tables, space, block),
        Event::Pick { space, block } => pick(plan, tables, space, block),
        Event::Gone { space, block } => gone(plan, tables, space, block),
        Event::Finish { task } => finish(plan, tables, task),
        Event::Close { region } => close(plan, tables, region),
        Event::Ask { .. }
        | Event::Put { .. }
        | Event::Shift { .. }
        | Event::Begin { .. }
        | Event::Hold { .. }
        | Event::Make { .. }
        | Event::Call { .. }
        | Event::Come { .. }
        | Event::Lend { .. }
        | Event::Copy { .. }
        | Event::Claim { .. }
        | Event::Back { .. } => unreachable!(),
    }
}

/// Whether an event takes no memory, and so is made by [`Core::finish`](crate::Core::finish).
pub fn is_final(event: Event) -> bool
    ensures { result ≡ is_final event }
{
    matches!(
        event,
        Event::Rest
            | Event::Free { .. }
            | Event::Pick { .. }
            | Event::Gone { .. }
            | Event::Finish { .. }
            | Event::Close { .. }
    )
}
