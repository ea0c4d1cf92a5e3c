//! Elements that go from one copy to another.
ghost use Rattle.std.specs.Prelude.{◌≡◌, ◌∷◌, [], IfErr, IfOk, OnOk, OnErr, Some, IsSome, IsSomeAnd, length, ℕ, ◌+◌, ◌*◌, ◌≤◌, true};
ghost use Rattle.dd_blocks.specs.WellFormed.{IsWellFormed};
ghost use Rattle.dd_causes.specs.Counts.{Rose};
ghost use Rattle.dd_holding.specs.Carried.{carries};
ghost use Rattle.dd_holding.specs.Facts.{IsTelling};
ghost use Rattle.dd_holding.specs.Holdings.{Holds, KeepsSlots, StandSlots, state_now};
ghost use Rattle.dd_holding.specs.Users.{wanted};
ghost use Rattle.dd_machine.specs.Legal.{Legal};
ghost use Rattle.dd_machine.specs.Needed.{needed, own_space};
ghost use Rattle.dd_machine.specs.Tests.{Has, is_here, versions_of};
ghost use Rattle.dd_machine.specs.Words.{size};
ghost use Rattle.dd_pool.specs.Places.{IsPlace};
ghost use Rattle.dd_pool.specs.Pools.{copy_at, out_at};
ghost use Rattle.dd_stamps.specs.declared.stamped.Stamped.{Stamped};

use crate::holding::Holding;
use crate::users::most_wanted;
use dd_machine::Entry;
use dd_spans::Runs;
use dd_stamps::Stamped;
use dd_store::{Store, StoreFault};
use dd_tables::rows::place;
use std::alloc::AllocError;

impl<'p, D: Store> Holding<'p, D> {
    /// Makes a Copy, or for task 0 a Back, from a copy that is Here.
    ///
    /// # Errors
    /// Want of memory. All is as it was.
    pub fn copy(
        &mut self,
        entry: Entry,
        task: u32,
        block: u32,
        source: u32,
        places: &Runs,
    ) -> Result<(), AllocError>
        requires well { IsWellFormed self.old.ledger.plan.now }
        requires legal { Legal self.old.ledger.plan.now (state_now self.old) entry }
        requires places { places.now.list ≡ needed self.old.ledger.plan.now (state_now self.old) task block source }
        requires event { entry.event ≡ carries task block source (length places.now.list) }
        requires here { Has (state_now self.old) source block is_here }
        ensures ok { OnOk result (Holds self.old self.new (entry ∷ [])) }
        ensures err { OnErr result (Holds self.old self.new []) }
        ensures slots { KeepsSlots self.old self.new }
    {
        let space = self.own_space(task, block);
        self.reserve_places(space, block, places)?;
        self.ledger.enter(entry)?;
        self.pool.move_places(space, block, source, places);
        Ok(())
    }

    /// Makes a Copy, or for task 0 a Back, from a copy that is lent.
    ///
    /// # Errors
    /// `Disk`, a fault that the slot has counted, and want of memory. The slot comes back where it is out of use.
    pub fn copy_lent(
        &mut self,
        entry: Entry,
        task: u32,
        block: u32,
        source: u32,
        places: &Runs,
    ) -> Result<(), (Option<D::Slot>, StoreFault)>
        requires well { IsWellFormed self.old.ledger.plan.now }
        requires legal { Legal self.old.ledger.plan.now (state_now self.old) entry }
        requires places { places.now.list ≡ needed self.old.ledger.plan.now (state_now self.old) task block source }
        requires event { entry.event ≡ carries task block source (length places.now.list) }
        requires slot { IsSome (out_at self.old.pool source block) }
        ensures ok { OnOk result (Holds self.old self.new (entry ∷ [])) }
        ensures err { OnErr result (Holds self.old self.new []) }
        ensures slots { OnOk result (StandSlots self.old self.new) }
        ensures cause { IfErr result (λ e. e.1 ≡ StoreFault.Disk
            → IsSomeAnd (out_at self.old.pool source block) (λ o. IsSomeAnd e.0 (λ slot. Rose (D.Slot.faults o.slot) (D.Slot.faults slot)))) }
    {
        let lent = self.read_slot(source, block)?;
        match self.copy_from(entry, task, block, source, &lent, places) {
            Ok(()) => Ok(()),
            Err(_) => Err((None, StoreFault::Memory)),
        }
    }

    // The copy that a slot has. The slot stays, or comes back where it is out of use.
    fn read_slot(
        &mut self,
        space: u32,
        block: u32,
    ) -> Result<Stamped<'p>, (Option<D::Slot>, StoreFault)>
        requires place { IsPlace self.old.ledger.plan.now space block }
        requires slot { IsSome (out_at self.old.pool space block) }
        ensures kept { Holds self.old self.new [] }
        ensures ledger { self.new.ledger ≡ self.old.ledger }
        ensures slots { OnOk result (StandSlots self.old self.new) }
        ensures ours { IfOk result (λ c. (c.plan ≡ self.old.ledger.plan) × (c.block ≡ block)) }
        ensures versions { IfOk result (λ c. c.versions.list ≡ versions_of ((state_now self.old).copies space block)) }
        ensures told { IsTelling D.Slot.tells self.old.ledger → IfOk result (λ c. c.told.mark ≡ true) }
        ensures cause { IfErr result (λ e. e.1 ≡ StoreFault.Disk
            → IsSomeAnd (out_at self.old.pool space block) (λ o. IsSomeAnd e.0 (λ slot. Rose (D.Slot.faults o.slot) (D.Slot.faults slot)))) }
    {
        let Some(mut out) = self.pool.take_out(space, block) else {
            unreachable!()
        };
        let lent = match out.recall() {
            Ok(lent) => lent,
            Err(fault) => return Err((Some(out.into_slot()), fault)),
        };
        match self.pool.put_out(space, block, out) {
            Ok(()) => Ok(lent),
            Err((out, _)) => Err((Some(out.into_slot()), StoreFault::Memory)),
        }
    }

    // The same from a copy that was read.
    fn copy_from(
        &mut self,
        entry: Entry,
        task: u32,
        block: u32,
        source: u32,
        lent: &Stamped<'p>,
        places: &Runs,
    ) -> Result<(), AllocError>
        requires well { IsWellFormed self.old.ledger.plan.now }
        requires legal { Legal self.old.ledger.plan.now (state_now self.old) entry }
        requires places { places.now.list ≡ needed self.old.ledger.plan.now (state_now self.old) task block source }
        requires event { entry.event ≡ carries task block source (length places.now.list) }
        requires ours { (lent.now.plan ≡ self.old.ledger.plan) × (lent.now.block ≡ block) }
        requires versions { lent.now.versions.list ≡ versions_of ((state_now self.old).copies source block) }
        requires told { IsTelling D.Slot.tells self.old.ledger → lent.now.told.mark ≡ true }
        ensures ok { OnOk result (Holds self.old self.new (entry ∷ [])) }
        ensures err { OnErr result (Holds self.old self.new []) }
        ensures slots { KeepsSlots self.old self.new }
    {
        let space = self.own_space(task, block);
        self.reserve_places(space, block, places)?;
        self.ledger.enter(entry)?;
        self.pool.take_places(space, block, lent, places);
        Ok(())
    }

    // The own space of a task, or of 0.
    fn own_space(&self, task: u32, block: u32) -> u32
        requires { IsWellFormed self.now.ledger.plan.now }
        ensures { result ≡ own_space self.now.ledger.plan.now (state_now self.now) task block }
    {
        if task == 0 {
            self.ledger.core().home(block)
        } else {
            place(self.ledger.plan(), task)
        }
    }

    // Makes the spare of a copy that is Here enough for places, beside what its users want.
    fn reserve_places(&mut self, space: u32, block: u32, places: &Runs) -> Result<(), AllocError>
        requires well { IsWellFormed self.old.ledger.plan.now }
        requires place { IsPlace self.old.ledger.plan.now space block }
        requires here { Has (state_now self.old) space block is_here }
        requires few { length places.now.list ≤ size self.old.ledger.plan.now block }
        ensures kept { Holds self.old self.new [] }
        ensures ledger { self.new.ledger ≡ self.old.ledger }
        ensures slots { KeepsSlots self.old self.new }
        ensures ok { OnOk result (IsSomeAnd (copy_at self.new.pool space block)
            (λ c. wanted self.old.ledger.plan.now (state_now self.old) space block + 2 * length places.now.list ≤ c.versions.spare)) }
    {
        let runs = most_wanted(self.ledger.plan(), block) + 2 * places.len();
        self.reserve_runs(space, block, runs)
    }

    // Makes the spare of a copy that is Here at least so many runs. No copy has less spare then.
    pub(crate) fn reserve_runs(
        &mut self,
        space: u32,
        block: u32,
        runs: u64,
    ) -> Result<(), AllocError>
        requires place { IsPlace self.old.ledger.plan.now space block }
        requires here { Has (state_now self.old) space block is_here }
        ensures kept { Holds self.old self.new [] }
        ensures ledger { self.new.ledger ≡ self.old.ledger }
        ensures slots { KeepsSlots self.old self.new }
        ensures more { (s b : ℕ) (c : Stamped) → IsPlace self.old.ledger.plan.now s b → copy_at self.old.pool s b ≡ Some c
            → IsSomeAnd (copy_at self.new.pool s b) (λ d. c.versions.spare ≤ d.versions.spare) }
        ensures ok { OnOk result (IsSomeAnd (copy_at self.new.pool space block) (λ c. runs ≤ c.versions.spare)) }
    {
        self.pool.reserve(space, block, runs)
    }
}
