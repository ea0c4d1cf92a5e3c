ghost use Rattle.std.specs.Prelude.{◌≡◌, ◌+◌, ◌^◌, ◌≤◌, true, None, Some, IsErrOf, IsSome};
ghost use Rattle.dd_blocks.specs.Lines.{LinesRise};
ghost use Rattle.dd_blocks.specs.WellFormed.{IsWellFormed};
ghost use Rattle.dd_causes.specs.Counts.{Rose};
ghost use Rattle.dd_print.specs.declared.fault.PrintFault.TheVariants.{DiskFault, WriteFault};
ghost use Rattle.dd_run.specs.Gives.{why_ended};
ghost use Rattle.dd_run.specs.Journals.{ClaimsBy, IsJournal};
ghost use Rattle.dd_run.specs.Runs.{IsBroken, IsWhole};
ghost use Rattle.dd_table.specs.declared.fault.RunFault.TheVariants as run;
ghost use Rattle.dd_table.specs.Counts.{pick_count};

use crate::promises::promises;
use crate::rows::run_rows;
use dd_back::close;
use dd_blocks::Plan;
use dd_io::Sink;
use dd_machine::Entry;
use dd_print::PrintFault;
use dd_store::Store;
use dd_table::Table;
use std::alloc::Global;

/// What a run came to.
#[derive(Drop)]
pub struct Ran<D: Store> {
    /// Why it ended early. None where it is whole.
    pub fault: Option<PrintFault>,
    pub journal: Vec<Entry>,
    /// How many elements moved.
    pub moved: u64,
    pub store: D,
}

/// Runs a Plan's statements by one worker, and writes what they print, with `journal` each with the lines of its entries below.
///
/// The fault `WriteFault` comes only where the sink counted one, `DiskFault` only where the store did, and `Memory` at any time.
pub fn run_plan<O: Sink, D: Store>(
    alloc: Global,
    plan: &Plan,
    journal: bool,
    out: &mut O,
    store: D,
) -> Ran<D>
    requires well { IsWellFormed plan.now }
    requires lines { journal ≡ true → LinesRise plan.now }
    requires few { D.made store ≤ 2 ^ 62 }
    ensures whole { result.fault ≡ None
        → IsWhole plan.now D.Slot.tells journal 1 result.journal.items result.moved (O.taken out.old) (O.taken out.new) }
    ensures broken { IsSome result.fault
        → IsBroken plan.now D.Slot.tells journal 1 result.journal.items result.moved (O.taken out.old) (O.taken out.new) }

    // Why it ended early.
    ensures write { result.fault ≡ Some WriteFault → Rose (O.faults out.old) (O.faults out.new) }
    ensures written { (¬ (result.fault ≡ Some WriteFault)) → O.faults out.new ≡ O.faults out.old }
    ensures writes_later { O.faults out.old ≤ O.faults out.new }
    ensures disk { result.fault ≡ Some DiskFault → Rose (D.faults store) (D.faults result.store) }
    ensures disk_later { D.faults store ≤ D.faults result.store }

    // A slot was made for each Pick.
    ensures made { D.made result.store ≡ D.made store + pick_count result.journal.items }
{
    match Table::new(alloc, plan, store) {
        Ok(mut table) => {
            let ended = run_rows(alloc, &mut table, journal, out);
            ended_run(table, ended)
        }
        Err((store, fault)) => Ran {
            fault: Some(fault.into()),
            journal: Vec::new(alloc),
            moved: 0,
            store,
        },
    }
}

/// A run that ended so.
fn ended_run<D: Store>(table: Table<'_, D>, ended: Result<(), PrintFault>) -> Ran<D>
    requires well { IsWellFormed table.holding.ledger.plan.now }
    requires claims { ClaimsBy 1 table.holding.ledger.journal.items }
    requires disk { IsErrOf ended DiskFault → table.cause ≡ Some run.DiskFault }
    ensures fault { result.fault ≡ why_ended ended }
    ensures journal { result.journal.items ≡ table.entry.holding.ledger.journal.items }
    ensures kept { IsJournal table.entry.holding.ledger.plan.now 1 result.journal.items result.moved }
    ensures made { D.made result.store ≡ D.made table.entry.opening.value + pick_count result.journal.items }
    ensures later { D.faults table.entry.store ≤ D.faults result.store }
    ensures disk { result.fault ≡ Some DiskFault → Rose (D.faults table.entry.opening.value) (D.faults result.store) }
{
    promises();
    let (journal, moved, store) = close(table);
    Ran {
        fault: ended.err(),
        journal,
        moved,
        store,
    }
}
