ghost use Rattle.std.specs.Prelude.{◌≡◌, ◌≢◌, ◌⊎◌, ◌+◌, ◌^◌, ◌≤◌, ℕ, length, None, Some};
ghost use Rattle.dd_blocks.specs.Limits.{text_limit};
ghost use Rattle.dd_causes.specs.Counts.{Rose};
ghost use Rattle.dd_check.specs.declared.fault.Fault.{Fault as ScriptFault};
ghost use Rattle.dd_check.specs.Faults.{IsFault};
ghost use Rattle.dd_session.specs.Causes.{status_of};
ghost use Rattle.dd_session.specs.Origins.{at_hand};
ghost use Rattle.dd_session.specs.Outcomes.{CountsFaults, EndsWith, over_spaces};
ghost use Rattle.dd_table.specs.Counts.{pick_count};

use crate::status::{Outcome, Status};
use dd_check::{AcceptFault, accept};
use dd_io::Sink;
use dd_run::{Fault, run_plan};
use dd_store::Store;
use std::alloc::Global;

/// Checks a script and runs it by one worker, over a store of its own. With `journal` the lines of its entries follow what each
/// statement prints. It waits for nobody and always returns.
pub fn run_one<O: Sink, D: Store + Send>(
    alloc: Global,
    text: &[u8],
    journal: bool,
    out: &mut O,
    store: D,
) -> Outcome<D>
    requires short { length text.now ≤ text_limit }
    requires few { D.made store ≤ 2 ^ 62 }

    // By the status: the headline where the run is whole, what stands after each other end, and of a script that is refused its fault.
    ensures ends { EndsWith (at_hand text.now) (over_spaces D.Slot.tells journal 1 result.journal.items result.moved (O.taken out.old) (O.taken out.new)) result.status }
    ensures unread { result.status ≢ Status.ReadFault }

    // A script that has no fault is run, and one that has a first fault is refused for it.
    ensures complete { ((fault : ScriptFault) → IsFault text.now fault → ⊥) → (Rose (O.faults out.old) (O.faults out.new) → ⊥)
        → (Rose (D.faults store) (D.faults result.store) → ⊥) → (result.status ≡ Status.Done) ⊎ (result.status ≡ Status.Memory) }
    ensures refused { (fault : ScriptFault) → IsFault text.now fault → (result.status ≡ Status.Script fault) ⊎ (result.status ≡ Status.Memory) }
    ensures unwritten { (fault : ScriptFault) → result.status ≡ Status.Script fault → out.new ≡ out.old }
    ensures unused { (fault : ScriptFault) → result.status ≡ Status.Script fault → result.store ≡ store }

    // Why a write or the store failed; a slot was made for each Pick.
    ensures writes { CountsFaults (result.status ≡ Status.WriteFault) (O.faults out.old) (O.faults out.new) }
    ensures disk { result.status ≡ Status.DiskFault → Rose (D.faults store) (D.faults result.store) }
    ensures disk_later { D.faults store ≤ D.faults result.store }
    ensures made { D.made result.store ≡ D.made store + pick_count result.journal.items }
{
    let plan = match accept(alloc, text) {
        Ok(plan) => plan,
        Err(AcceptFault::Script(fault)) => return Outcome::unrun(
            alloc,
            Status::Script(fault),
            store,
        ),
        Err(AcceptFault::Memory) => return Outcome::unrun(alloc, Status::Memory, store),
    };
    let ran = run_plan(alloc, &plan, journal, out, store);
    Outcome {
        status: status_of(ran.fault),
        journal: ran.journal,
        moved: ran.moved,
        store: ran.store,
    }
}

/// The status of a run that ended for this.
fn status_of(fault: Option<Fault>) -> Status
    ensures { result ≡ status_of fault }
{
    match fault {
        None => Status::Done,
        Some(Fault::WriteFault) => Status::WriteFault,
        Some(Fault::DiskFault) => Status::DiskFault,
        Some(Fault::Memory) => Status::Memory,
    }
}
