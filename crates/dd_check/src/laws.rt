//! Laws over the definitions of this crate. Each is a function without arguments whose contract is the law.

ghost use Rattle.std.specs.Prelude.{ℕ, List};
ghost use Rattle.dd_blocks.specs.declared.plan.Plan.{Plan};
ghost use Rattle.dd_blocks.specs.WellFormed.{IsWellFormed};
ghost use Rattle.dd_check.specs.declared.fault.Fault.{Fault};
ghost use Rattle.dd_check.specs.Faults.{IsFault, IsOnlyFaultOf, IsOnlyPlanOf, IsPlanOf};

/// The Plan of a text is well formed.
pub fn well_formed()
    ensures { (text : List ℕ) (plan : Plan) → IsPlanOf text plan → IsWellFormed plan }
{}

/// A text that makes a Plan makes no other, and has no fault.
pub fn one_plan()
    ensures { (text : List ℕ) (plan : Plan) → IsPlanOf text plan → IsOnlyPlanOf text plan }
{}

/// A text that has a fault has no other, and makes no Plan.
pub fn one_fault()
    ensures { (text : List ℕ) (fault : Fault) → IsFault text fault → IsOnlyFaultOf text fault }
{}

/// No text has neither a Plan nor a fault.
pub fn every_text()
    ensures { (text : List ℕ) → ((plan : Plan) → ¬ IsPlanOf text plan) → ((fault : Fault) → ¬ IsFault text fault) → ⊥ }
{}
