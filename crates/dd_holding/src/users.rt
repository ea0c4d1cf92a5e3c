//! The spare that copies keep for the tasks that use them.
ghost use Rattle.std.specs.Prelude.{◌≡◌, ◌^◌, ◌<◌};
ghost use Rattle.dd_blocks.specs.Numbered.{IsNumberIn};
ghost use Rattle.dd_blocks.specs.WellFormed.{IsWellFormed};
ghost use Rattle.dd_holding.specs.Users.{most_wanted};

use dd_blocks::Plan;

/// How many runs the tasks want at most that may use a block at once.
pub(crate) fn most_wanted(plan: &Plan, block: u32) -> u64
    requires well { IsWellFormed plan.now }
    requires block { IsNumberIn plan.now.blocks block }
    ensures value { result ≡ most_wanted plan.now block }
    ensures small { result < 2 ^ 40 }
{
    let runs = 2 * u64::from(plan.block(block).size);
    plan.procs.as_slice().len() as u64 * runs
}
