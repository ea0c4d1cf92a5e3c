//! Elements that go from one copy to another.
ghost use Rattle.std.specs.Prelude.{◌≡◌, ◌≤◌, ◌∷◌, [], None, length, IsErrOf, OnOk, OnErr};
ghost use Rattle.dd_blocks.specs.WellFormed.{IsWellFormed};
ghost use Rattle.dd_causes.specs.Counts.{Rose};
ghost use Rattle.dd_holding.specs.Carried.{carries};
ghost use Rattle.dd_holding.specs.Holdings.{Holds};
ghost use Rattle.dd_holding.specs.Holdings as holdings;
ghost use Rattle.dd_machine.specs.declared.event.Event.TheVariants.{Lend};
ghost use Rattle.dd_machine.specs.Legal.{Legal, May};
ghost use Rattle.dd_machine.specs.Needed.{needed};
ghost use Rattle.dd_machine.specs.Tests.{Has, is_here};
ghost use Rattle.dd_table.specs.Facts.{IsSettled};
ghost use Rattle.dd_core.specs.Lines.{with_line};
ghost use Rattle.dd_table.specs.Partly.{Partly};
ghost use Rattle.dd_table.specs.Tables.{Gives, IsLeft, state_now};

use crate::fault::{RunFault, keep};
use crate::table::Table;
use dd_holding::Holding;
use dd_machine::{Entry, Event};
use dd_spans::Runs;
use dd_store::{Store, StoreFault};

/// The event that carries so many elements of a block from a space, for a task or, where it is 0, for the write-back.
fn carried(task: u32, block: u32, source: u32, count: u64) -> Event
    ensures { result ≡ carries task block source count }
{
    if task == 0 {
        Event::Back {
            block,
            source,
            count,
        }
    } else {
        Event::Copy {
            task,
            block,
            source,
            count,
        }
    }
}

impl<'p, D: Store> Table<'p, D> {
    /// Copies what a task needs, or the write-back for 0, from a copy that is Here.
    pub(crate) fn copy(&mut self, task: u32, block: u32, source: u32) -> Result<(), RunFault>
        requires well { IsWellFormed self.old.holding.ledger.plan.now }
        requires left { IsLeft self.old }
        requires running { self.old.cause ≡ None }
        requires here { Has (state_now self.old) source block is_here }
        requires legal { May self.old.holding.ledger.plan.now (state_now self.old)
            (carries task block source (length (needed self.old.holding.ledger.plan.now (state_now self.old) task block source))) }
        ensures { Gives self.old self.new
            (carries task block source (length (needed self.old.holding.ledger.plan.now (state_now self.old) task block source)) ∷ []) result }
    {
        let line = self.line();
        let Ok(places) = self.core().needed(self.plan(), task, block, source) else {
            return Err(self.stop(StoreFault::Memory));
        };
        let event = carried(task, block, source, places.len());
        match self
            .holding
            .copy(Entry { line, event }, task, block, source, &places)
        {
            Ok(()) => Ok(()),
            Err(_) => Err(self.stop(StoreFault::Memory)),
        }
    }

    /// Lends a copy that is Out, and copies what is needed from it.
    pub(crate) fn lend(&mut self, task: u32, block: u32, source: u32) -> Result<(), RunFault>
        requires well { IsWellFormed self.old.holding.ledger.plan.now }
        requires left { IsLeft self.old }
        requires running { self.old.cause ≡ None }
        requires legal { May self.old.holding.ledger.plan.now (state_now self.old) (Lend task block source) }
        ensures { Gives self.old self.new
            (Lend task block source ∷ carries task block source (length (needed self.old.holding.ledger.plan.now (state_now self.old) task block source)) ∷ []) result }
    {
        let line = self.line();
        let Ok(places) = self.core().needed(self.plan(), task, block, source) else {
            return Err(self.stop(StoreFault::Memory));
        };
        match carry_lent(
            &mut self.holding,
            &mut self.store,
            line,
            task,
            block,
            source,
            &places,
        ) {
            Ok(()) => Ok(()),
            Err(fault) => Err(keep(&mut self.cause, fault)),
        }
    }
}

/// Makes a Lend, and the Copy or Back of what is needed from the copy that is lent.
///
/// # Errors
/// A fault of the slot, and want of memory. The copy is lent then, or it is Out still.
fn carry_lent<'p, D: Store>(
    holding: &mut Holding<'p, D>,
    store: &mut D,
    line: u32,
    task: u32,
    block: u32,
    source: u32,
    places: &Runs,
) -> Result<(), StoreFault>
    requires well { IsWellFormed holding.old.ledger.plan.now }
    requires legal { Legal holding.old.ledger.plan.now (holdings.state_now holding.old) (record { line = line; event = Lend task block source }) }
    requires places { places.now.list ≡ needed holding.old.ledger.plan.now (holdings.state_now holding.old) task block source }
    requires settled { IsSettled holding.old None }
    ensures ok { OnOk result (Holds holding.old holding.new (with_line line (Lend task block source ∷ carries task block source (length places.now.list) ∷ []))) }
    ensures err { OnErr result (Partly holding.old holding.new line (Lend task block source ∷ carries task block source (length places.now.list) ∷ [])) }
    ensures settled { OnOk result (IsSettled holding.new None) }
    ensures made { D.made store.new ≡ D.made store.old }
    ensures later { D.faults store.old ≤ D.faults store.new }
    ensures cause { IsErrOf result StoreFault.Disk → Rose (D.faults store.old) (D.faults store.new) }
{
    let event = Event::Lend {
        task,
        block,
        source,
    };
    holding.note(Entry { line, event })?;
    let event = carried(task, block, source, places.len());
    match holding.copy_lent(Entry { line, event }, task, block, source, places) {
        Ok(()) => Ok(()),
        Err((slot, fault)) => {
            if let Some(slot) = slot {
                store.end(slot);
            }
            Err(fault)
        }
    }
}
