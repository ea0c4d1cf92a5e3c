//! Laws over legal runs, and so over every run of a core. Each is a function without arguments whose contract is the law.

ghost use Rattle.std.specs.Prelude.{◌≡◌, ◌≤◌, ◌<◌, ◌+◌, ℕ, false, List, [], ◌∷◌, ◌++◌, Some};
ghost use Rattle.dd_blocks.specs.declared.plan.Plan.{Plan};
ghost use Rattle.dd_blocks.specs.WellFormed.{IsWellFormed};
ghost use Rattle.dd_meaning.specs.Moves.{moved};
ghost use Rattle.dd_machine.specs.declared.entry.Entry.{Entry};
ghost use Rattle.dd_machine.specs.declared.event.Event.TheVariants.{Begin, Close, Pick};
ghost use Rattle.dd_machine.specs.Bytes.{load, resident, victim};
ghost use Rattle.dd_machine.specs.Carriage.{IsCarriage, Step, sends};
ghost use Rattle.dd_machine.specs.Closed.{IsAtHome};
ghost use Rattle.dd_machine.specs.GoesOn.{GoOn};
ghost use Rattle.dd_machine.specs.Owed.{all_entries, left, made};
ghost use Rattle.dd_machine.specs.Roomy.{AllRoomy};
ghost use Rattle.dd_machine.specs.Runs.{IsLegalRun, IsWholeRun, has_pick, start, state_of_run};
ghost use Rattle.dd_machine.specs.Sound.{IsSound};
ghost use Rattle.dd_machine.specs.TwoSpaces.{AreRefused, IsWorked, two_spaces};
ghost use Rattle.dd_machine.specs.Words.{IsOneOf, limit, spaces};
ghost use Rattle.laws_of_machine.specs.Asked.{asked};

use laws_of_machine::laws;

/// After every legal run the state is sound.
pub fn sound()
    ensures { (plan : Plan) (entries : List Entry) → IsWellFormed plan → IsLegalRun plan entries → IsSound plan (state_of_run plan entries) }
{
    laws::sound();
}

/// After every legal run no space holds more than its limit.
pub fn fits()
    ensures { (plan : Plan) (entries : List Entry) → IsWellFormed plan → IsLegalRun plan entries
        → (space : ℕ) → IsOneOf (spaces plan) space → resident plan (state_of_run plan entries) space ≤ limit plan space }
{
    laws::fits();
}

/// After a region is closed every copy is at its home, with the versions with which the region ends.
pub fn closed_home()
    ensures { (plan : Plan) (entries : List Entry) (line region : ℕ) → IsWellFormed plan
        → IsLegalRun plan (entries ++ record { line = line; event = Close region } ∷ [])
        → IsAtHome plan region (state_of_run plan (entries ++ record { line = line; event = Close region } ∷ [])) }
{
    laws::closed_home();
}

/// A block is spilled only where the load of its space is above the limit, and it is the victim there. Where every
/// space of a script is roomy, nothing is spilled.
pub fn spills_only_over()
    ensures only_over { (plan : Plan) (entries : List Entry) (line space block : ℕ)
        → IsLegalRun plan (entries ++ record { line = line; event = Pick space block } ∷ [])
        → (limit plan space < load plan (state_of_run plan entries) space) × (victim plan (state_of_run plan entries) space ≡ Some block) }
    ensures roomy { (plan : Plan) (entries : List Entry) → IsWellFormed plan → AllRoomy plan → IsLegalRun plan entries → has_pick entries ≡ false }
{
    laws::spills_only_over();
}

/// From the begin of a region to its close exactly as many elements move as its placement makes necessary.
pub fn moved_exact()
    ensures { (plan : Plan) (before within : List Entry) (region first last : ℕ) → IsWellFormed plan
        → IsLegalRun plan (before ++ (record { line = first; event = Begin region } ∷ (within ++ (record { line = last; event = Close region } ∷ []))))
        → (state_of_run plan (before ++ (record { line = first; event = Begin region } ∷ (within ++ (record { line = last; event = Close region } ∷ []))))).moved
        ≡ (state_of_run plan before).moved + moved plan region }
{
    laws::moved_exact();
}

/// No carriage of a region has fewer sends than the region moves elements.
pub fn moved_least()
    ensures { (plan : Plan) (region : ℕ) (steps : List Step) → IsWellFormed plan → IsCarriage plan region steps → moved plan region ≤ sends steps }
{
    laws::moved_least();
}

/// In an open region some entry is always legal; where nothing is on its way and not every task is done, an event leads a
/// task on; and a region is closed within a bounded number of entries.
pub fn goes_on()
    ensures { (plan : Plan) → IsWellFormed plan → GoOn plan }
{
    laws::goes_on();
}

/// The entries of a legal run that the statements ask for are those that its state says were made. With those that are left
/// they are all that the statements ask for, in this order; of a whole run they are all.
pub fn asks_all()
    ensures made { (plan : Plan) (entries : List Entry) → IsWellFormed plan → IsLegalRun plan entries → made plan (state_of_run plan entries).progress ≡ asked plan (start plan) entries }
    ensures so_far { (plan : Plan) (entries : List Entry) → IsWellFormed plan → IsLegalRun plan entries
        → asked plan (start plan) entries ++ left plan (state_of_run plan entries).progress ≡ all_entries plan }
    ensures whole { (plan : Plan) (entries : List Entry) → IsWellFormed plan → IsWholeRun plan entries → asked plan (start plan) entries ≡ all_entries plan }
{
    laws::asks_all();
}

/// A well-formed Plan with a whole legal run exists, so what the laws assume can be met: the worked script of two spaces, whose
/// journal moves two elements. Five changes of the journal have an entry that isn't legal.
pub fn some_whole_run()
    ensures well_formed { IsWellFormed two_spaces }
    ensures worked { IsWorked }
    ensures refused { AreRefused }
{
    laws::some_whole_run();
}
