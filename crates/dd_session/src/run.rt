ghost use Rattle.std.specs.Prelude.{◌≡◌, ◌≢◌, ◌⊎◌, ◌↔◌, ◌+◌, ◌^◌, ◌<◌, ◌≤◌, ℕ, false, [], List, Some, Err, length, IfErr, IfOk};
ghost use Rattle.std.specs.Io.KnownBytes.{Appends};
ghost use Rattle.dd_blocks.specs.Limits.{text_limit};
ghost use Rattle.dd_causes.specs.Appended.{AppendsFront};
ghost use Rattle.dd_causes.specs.Counts.{Rose};
ghost use Rattle.dd_io.specs.Taken.{ReadsToEnd};
ghost use Rattle.dd_check.specs.declared.fault.Fault.{Fault as ScriptFault};
ghost use Rattle.dd_check.specs.Faults.{IsFault, too_long};
ghost use Rattle.dd_session.specs.declared.words.Command.TheVariants.{Run, Plain};
ghost use Rattle.dd_session.specs.Messages.{message_of};
ghost use Rattle.dd_session.specs.Origins.{at_hand, read_from};
ghost use Rattle.dd_session.specs.Outcomes.{CountsFaults, EndsUnread, EndsWith, TellsFaults, leaves_of, on_arrays, over_spaces};
ghost use Rattle.dd_session.specs.Words.{AreCommand, AreOf};
ghost use Rattle.dd_table.specs.Counts.{pick_count};

use crate::one_worker::run_one;
use crate::reporting::report;
use crate::status::{Outcome, Status};
use crate::words::{Command, CommandWords};
use dd_blocks::limits::TEXT_LIMIT;
use dd_check::{AcceptFault, Fault, Kind, accept};
use dd_io::{ReadEnd, Sink, Source, read_all};
use dd_plain::{PlainFault, run_plain};
use dd_store::Store;
use std::alloc::Global;

/// The fault of a text that has more bytes than a script may have.
fn too_long() -> Fault
    ensures { result ≡ too_long }
{
    Fault {
        line: 0,
        kind: Kind::TooLong,
        a: TEXT_LIMIT,
        b: 0,
    }
}

/// Reads a script to its end, or says with which status the command ends.
fn read_script<S: Source>(alloc: Global, src: &mut S) -> Result<Vec<u8>, Status>
    ensures read { IfOk result (λ text. ReadsToEnd (S.left src.old) (S.left src.new) text.items × (length text.items ≤ text_limit)) }
    ensures ended { IfErr result (λ status. EndsUnread (read_from (S.left src.old) (S.left src.new)) status) }
    ensures faults { CountsFaults (result ≡ Err Status.ReadFault) (S.faults src.old) (S.faults src.new) }
{
    match read_all(alloc, src, TEXT_LIMIT as usize) {
        Ok(text) => Ok(text),
        Err(ReadEnd::TooLong) => Err(Status::Script(too_long())),
        Err(ReadEnd::ReadFault) => Err(Status::ReadFault),
        Err(ReadEnd::Memory) => Err(Status::Memory),
    }
}

/// Checks a script and runs its tasks one after the other on whole arrays.
fn run_whole<O: Sink>(alloc: Global, text: &[u8], out: &mut O) -> Status
    requires short { length text.now ≤ text_limit }
    ensures ends { EndsWith (at_hand text.now) (on_arrays [] 0 (O.taken out.old) (O.taken out.new)) result }
    ensures unwritten { (fault : ScriptFault) → result ≡ Status.Script fault → out.new ≡ out.old }
    ensures writes { CountsFaults (result ≡ Status.WriteFault) (O.faults out.old) (O.faults out.new) }
    ensures causes { (result ≢ Status.ReadFault) × (result ≢ Status.DiskFault) }
{
    let plan = match accept(alloc, text) {
        Ok(plan) => plan,
        Err(AcceptFault::Script(fault)) => return Status::Script(fault),
        Err(AcceptFault::Memory) => return Status::Memory,
    };
    match run_plain(alloc, &plan, out) {
        Ok(()) => Status::Done,
        Err(PlainFault::WriteFault) => Status::WriteFault,
        Err(PlainFault::Memory) => Status::Memory,
    }
}

/// Does what a command asks for with a script.
fn run_script<O: Sink, D: Store + Send>(
    alloc: Global,
    command: Command,
    text: &[u8],
    out: &mut O,
    store: D,
) -> Outcome<D>
    requires short { length text.now ≤ text_limit }
    requires few { D.made store ≤ 2 ^ 62 }
    ensures ends { EndsWith (at_hand text.now) (leaves_of command D.Slot.tells result.journal.items result.moved (O.taken out.old) (O.taken out.new)) result.status }
    ensures unwritten { (fault : ScriptFault) → result.status ≡ Status.Script fault → out.new ≡ out.old }
    ensures unread { result.status ≢ Status.ReadFault }
    ensures writes { CountsFaults (result.status ≡ Status.WriteFault) (O.faults out.old) (O.faults out.new) }
    ensures disk { result.status ≡ Status.DiskFault → Rose (D.faults store) (D.faults result.store) }
    ensures disk_later { D.faults store ≤ D.faults result.store }
    ensures made { D.made result.store ≡ D.made store + pick_count result.journal.items }
    ensures unused { command ≡ Plain → result.store ≡ store }
{
    match command {
        Command::Run => run_one(alloc, text, false, out, store),
        Command::Plain => {
            let status = run_whole(alloc, text, out);
            Outcome::unrun(alloc, status, store)
        }
    }
}

/// Reads the script of a command, and does what it asks for.
fn run_command<S: Source, O: Sink, D: Store + Send>(
    alloc: Global,
    command: Command,
    src: &mut S,
    out: &mut O,
    store: D,
) -> Outcome<D>
    requires few { D.made store ≤ 2 ^ 62 }
    ensures ends { EndsWith (read_from (S.left src.old) (S.left src.new))
        (leaves_of command D.Slot.tells result.journal.items result.moved (O.taken out.old) (O.taken out.new)) result.status }
    ensures unwritten { (fault : ScriptFault) → result.status ≡ Status.Script fault → out.new ≡ out.old }
    ensures unread { result.status ≡ Status.ReadFault → out.new ≡ out.old }
    ensures faults { TellsFaults result.status (S.faults src.old) (S.faults src.new) (O.faults out.old) (O.faults out.new) (D.faults store) (D.faults result.store) }
    ensures made { D.made result.store ≡ D.made store + pick_count result.journal.items }
    ensures unused { command ≡ Plain → result.store ≡ store }
{
    match read_script(alloc, src) {
        Ok(text) => run_script(alloc, command, &text, out, store),
        Err(status) => Outcome::unrun(alloc, status, store),
    }
}

/// Runs the command that the words name. `run` reads a script from the source, checks it whole, and runs it over its spaces, with
/// the blocks that don't fit in slots of the store; `plain` runs its tasks one after the other on whole arrays. What the script
/// prints goes to `out`, and the line of the status to `err`. The store comes back, whatever the status.
///
/// Statuses other than `Done`: `Words` exactly where the words are not one word that names a command; `Script` exactly where the
/// script has that first fault; `ReadFault`, `WriteFault` and `DiskFault` only where the source, `out` or the store failed
/// meanwhile; `Memory` at any time.
pub fn run_words<S: Source, O: Sink, E: Sink, D: Store + Send>(
    alloc: Global,
    words: &CommandWords,
    src: &mut S,
    out: &mut O,
    err: &mut E,
    store: D,
) -> Outcome<D>
    requires few { D.made store ≤ 2 ^ 62 }
    ensures words { (result.status ≡ Status.Words) ↔ (AreCommand words.now → ⊥) }
    ensures idle { (AreCommand words.now → ⊥) → (src.new ≡ src.old) × (out.new ≡ out.old) × (result.store ≡ store) }
    ensures ran_nothing { (AreCommand words.now → ⊥) → (result.journal.items ≡ []) × (result.moved ≡ 0) }

    // By the status: for `run` the headline where the run is whole, and what stands after each other end; the same of `plain`.
    ensures run { AreOf Run words.now
        → EndsWith (read_from (S.left src.old) (S.left src.new))
        (over_spaces D.Slot.tells false 1 result.journal.items result.moved (O.taken out.old) (O.taken out.new)) result.status }
    ensures plain { AreOf Plain words.now
        → EndsWith (read_from (S.left src.old) (S.left src.new))
        (on_arrays result.journal.items result.moved (O.taken out.old) (O.taken out.new)) result.status }
    ensures unused { AreOf Plain words.now → result.store ≡ store }

    // Where nothing failed and the source tells what it has: a script that has no fault is run, and one that has a first fault is
    // refused for it.
    ensures complete { AreCommand words.now → (text : List ℕ) → S.left src.old ≡ Some text → ((fault : ScriptFault) → IsFault text fault → ⊥)
        → (Rose (S.faults src.old) (S.faults src.new) → ⊥) → (Rose (O.faults out.old) (O.faults out.new) → ⊥)
        → (Rose (D.faults store) (D.faults result.store) → ⊥) → (result.status ≡ Status.Done) ⊎ (result.status ≡ Status.Memory) }
    ensures refused { AreCommand words.now → (text : List ℕ) (fault : ScriptFault) → S.left src.old ≡ Some text → IsFault text fault
        → (Rose (S.faults src.old) (S.faults src.new) → ⊥) → (result.status ≡ Status.Script fault) ⊎ (result.status ≡ Status.Memory) }

    // A script that is refused and a source that failed leave the output as it was, and a run that is done leaves the error output,
    // also where they tell nothing of their bytes.
    ensures unwritten { (fault : ScriptFault) → result.status ≡ Status.Script fault → out.new ≡ out.old }
    ensures unread { result.status ≡ Status.ReadFault → out.new ≡ out.old }
    ensures quiet { result.status ≡ Status.Done → err.new ≡ err.old }

    // Why a read, a write or the store failed; no fault of the source or of the output is passed over.
    ensures faults { TellsFaults result.status (S.faults src.old) (S.faults src.new) (O.faults out.old) (O.faults out.new) (D.faults store) (D.faults result.store) }

    // A slot was made for each Pick.
    ensures made { D.made result.store ≡ D.made store + pick_count result.journal.items }

    // What the error output got.
    ensures message { Rose (E.faults err.old) (E.faults err.new)
        ⊎ Appends (E.taken err.old) (E.taken err.new) (message_of result.status) }
    ensures front { AppendsFront (E.taken err.old) (E.taken err.new) (message_of result.status) }
    ensures reports_later { E.faults err.old ≤ E.faults err.new }
{
    match words.command() {
        Some(command) => report_outcome(run_command(alloc, command, src, out, store), err),
        None => report_outcome(Outcome::unrun(alloc, Status::Words, store), err),
    }
}

/// Writes the line of what a command came to. Whether that succeeds changes nothing of it.
fn report_outcome<E: Sink, D: Store>(outcome: Outcome<D>, err: &mut E) -> Outcome<D>
    ensures same { result ≡ outcome }
    ensures quiet { outcome.status ≡ Status.Done → err.new ≡ err.old }
    ensures message { Rose (E.faults err.old) (E.faults err.new) ⊎ Appends (E.taken err.old) (E.taken err.new) (message_of outcome.status) }
    ensures front { AppendsFront (E.taken err.old) (E.taken err.new) (message_of outcome.status) }
    ensures later { E.faults err.old ≤ E.faults err.new }
{
    let _ = report(outcome.status, err);
    outcome
}
