//! The tasks of a region, which stand one after another.
ghost use Rattle.std.specs.Prelude.{◌≡◌, ◌↔◌, ◌<◌, ◌≤◌, ℕ};
ghost use Rattle.dd_blocks.specs.Numbered.{task_row};
ghost use Rattle.dd_blocks.specs.WellFormed.{IsWellFormed};
ghost use Rattle.dd_machine.specs.Words.{IsOf, tasks};

use dd_blocks::Plan;

/// How many tasks stand before those of a region.
fn tasks_before(plan: &Plan, region: u64) -> u32
    requires { IsWellFormed plan.now }
    ensures within { result ≤ tasks plan.now }
    ensures before { (t : ℕ) → 1 ≤ t → t ≤ result → (task_row plan.now t).region < region }
    ensures behind { (t : ℕ) → result < t → t ≤ tasks plan.now → region ≤ (task_row plan.now t).region }
{
    plan.tasks
        .as_slice()
        .partition_point(|task| u64::from(task.region) < region) as u32
}

/// How many tasks stand before those of a region, and how many with them: from the first number on and up to the second.
pub(crate) fn tasks_of(plan: &Plan, region: u32) -> (u32, u32)
    requires { IsWellFormed plan.now }
    ensures within { result.1 ≤ tasks plan.now }
    ensures tasks { (t : ℕ) → IsOf plan.now region t ↔ ((result.0 < t) × (t ≤ result.1)) }
{
    let region = u64::from(region);
    (tasks_before(plan, region), tasks_before(plan, region + 1))
}
