//! Copies of blocks that are made, and called back.
ghost use Rattle.std.specs.Prelude.{◌≡◌};
ghost use Rattle.dd_blocks.specs.WellFormed.{IsWellFormed};
ghost use Rattle.dd_next.specs.Candidates.{calls, makes};
ghost use Rattle.dd_next.specs.First.{IsFirstLegal};
ghost use Rattle.dd_tables.specs.Sized.{IsSized};
ghost use Rattle.dd_tables.specs.Tables.{state_of};

use dd_blocks::Plan;
use dd_legal::{may_call, may_make};
use dd_machine::Event;
use dd_tables::Tables;

/// The first of some blocks of which the task gets a copy.
pub(crate) fn first_make(tables: &Tables, plan: &Plan, task: u32, blocks: &[u32]) -> Option<Event>
    requires well { IsWellFormed plan.now }
    requires sized { IsSized plan.now tables.now }
    ensures { IsFirstLegal plan.now (state_of plan.now tables.now) (makes task blocks.now) result }
{
    for block in blocks {
        if may_make(tables, plan, task, *block) {
            return Some(Event::Make {
                task,
                block: *block,
            });
        }
    }
    None
}

/// The first of some blocks that is called back into a space.
pub(crate) fn first_call(tables: &Tables, plan: &Plan, space: u32, blocks: &[u32]) -> Option<Event>
    requires well { IsWellFormed plan.now }
    requires sized { IsSized plan.now tables.now }
    ensures { IsFirstLegal plan.now (state_of plan.now tables.now) (calls space blocks.now) result }
{
    for block in blocks {
        if may_call(tables, plan, space, *block) {
            return Some(Event::Call {
                space,
                block: *block,
            });
        }
    }
    None
}
