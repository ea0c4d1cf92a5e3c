//! What the laws of the machine promise of a run's journal.
ghost use Rattle.std.specs.Prelude.{◌≡◌, ℕ, List};
ghost use Rattle.dd_blocks.specs.declared.plan.Plan.{Plan};
ghost use Rattle.dd_blocks.specs.WellFormed.{IsWellFormed};
ghost use Rattle.dd_machine.specs.declared.entry.Entry.{Entry};
ghost use Rattle.dd_machine.specs.Runs.{IsLegalRun, state_of_run};
ghost use Rattle.dd_run.specs.Journals.{ClaimsBy, IsJournal};

/// A legal journal keeps the limits and moves exactly what it has to; only its Claims have to be looked at.
pub(crate) fn promises()
    ensures { (plan : Plan) (workers count : ℕ) (journal : List Entry) → IsWellFormed plan → IsLegalRun plan journal → ClaimsBy workers journal
        → count ≡ (state_of_run plan journal).moved → IsJournal plan workers journal count }
{}
