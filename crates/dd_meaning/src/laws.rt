//! Laws over the definitions of this crate. Each is a function without arguments whose contract is the law.

ghost use Rattle.std.specs.Prelude.{◌≡◌, ◌≢◌, ◌<◌, ◌≤◌, ℕ, false, true, Contains, length};
ghost use Rattle.dd_blocks.specs.declared.plan.Plan.{Plan};
ghost use Rattle.dd_blocks.specs.Elements.{Element, task_reads, task_writes};
ghost use Rattle.dd_blocks.specs.Grids.{element_count};
ghost use Rattle.dd_blocks.specs.Numbered.{IsNumberIn, array_row, task_row};
ghost use Rattle.dd_blocks.specs.WellFormed.{IsWellFormed};
ghost use Rattle.dd_meaning.specs.Values.{value_at};
ghost use Rattle.dd_meaning.specs.Versions.{needed_version};

/// Where a task reads an element, and the version that it finds was made by a task of its region, it depends on that task.
pub fn needed_versions_are_dependencies()
    ensures { (plan : Plan) (t : ℕ) (e : Element) → IsWellFormed plan → task_reads (task_row plan t) e ≡ true
        → needed_version plan e t ≢ 0 → (task_row plan (needed_version plan e t)).region ≡ (task_row plan t).region
        → Contains (task_row plan t).deps (needed_version plan e t) }
{}

/// Where no task from j + 1 to k writes an element, it has one value after the first j tasks and after the first k.
pub fn unwritten_values_stay()
    ensures { (plan : Plan) (e : Element) (j k : ℕ) → IsWellFormed plan → IsNumberIn plan.arrays e.array
        → e.pos < element_count (array_row plan e.array).grid → j ≤ k → k ≤ length plan.tasks
        → ((t : ℕ) → j < t → t ≤ k → task_writes (task_row plan t) e ≡ false) → value_at plan k e ≡ value_at plan j e }
{}
