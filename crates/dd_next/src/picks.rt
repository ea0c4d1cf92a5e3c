//! Which block of a space is spilled.
ghost use Rattle.std.specs.Prelude.{◌≡◌};
ghost use Rattle.dd_blocks.specs.WellFormed.{IsWellFormed};
ghost use Rattle.dd_machine.specs.Sound.{IsSound};
ghost use Rattle.dd_machine.specs.Words.{IsOneOf, spaces};
ghost use Rattle.dd_next.specs.Candidates.{picks};
ghost use Rattle.dd_next.specs.First.{IsFirstLegal};
ghost use Rattle.dd_tables.specs.Sized.{IsSized};
ghost use Rattle.dd_tables.specs.Tables.{state_of};

use dd_blocks::Plan;
use dd_machine::Event;
use dd_tables::Tables;
use dd_tables::rows::limit;

/// The Pick of a space, where one is legal: the load is above the limit, and it is the victim.
pub(crate) fn first_pick(tables: &Tables, plan: &Plan, space: u32) -> Option<Event>
    requires well { IsWellFormed plan.now }
    requires sized { IsSized plan.now tables.now }
    requires sound { IsSound plan.now (state_of plan.now tables.now) }
    requires space { IsOneOf (spaces plan.now) space }
    ensures { IsFirstLegal plan.now (state_of plan.now tables.now) (picks plan.now space) result }
{
    if tables.load(plan, space) <= limit(plan, space) {
        return None;
    }
    match tables.victim(plan, space) {
        Some(block) => Some(Event::Pick { space, block }),
        None => None,
    }
}
