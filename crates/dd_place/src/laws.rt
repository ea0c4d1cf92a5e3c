//! Laws over the definitions of this crate. Each is a function without arguments whose contract is the law.

ghost use Rattle.std.specs.Prelude.{◌≡◌, ◌≤◌, ℕ, List, length};
ghost use Rattle.dd_blocks.specs.declared.plan.Plan.{Plan};
ghost use Rattle.dd_blocks.specs.declared.task_row.TaskRow.{TaskRow};
ghost use Rattle.dd_blocks.specs.WellFormed.{IsWellFormed};
ghost use Rattle.dd_place.specs.Placement.{IsPlaced};
ghost use Rattle.dd_place.specs.Premises.{CanPlace};

/// A well-formed Plan with a processor has all that a placement asks of a Plan.
pub fn well_formed()
    ensures { (plan : Plan) → IsWellFormed plan → 1 ≤ length plan.procs → CanPlace plan }
{}

/// A task is placed on one processor alone.
pub fn one_processor()
    ensures { (plan : Plan) (earlier : List ℕ) (task : TaskRow) (p q : ℕ) → IsPlaced plan earlier task p → IsPlaced plan earlier task q → p ≡ q }
{}
