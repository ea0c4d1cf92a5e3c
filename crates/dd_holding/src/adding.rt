//! Copies that come into the memory.
ghost use Rattle.std.specs.Prelude.{◌≡◌, ◌∷◌, [], true, false, None, Some, IsErrOf, OnOk, OnErr, IsSome, IsSomeAnd};
ghost use Rattle.dd_blocks.specs.WellFormed.{IsWellFormed};
ghost use Rattle.dd_causes.specs.Counts.{Rose};
ghost use Rattle.dd_core.specs.Finals.{is_final};
ghost use Rattle.dd_holding.specs.Added.{AddsCopy};
ghost use Rattle.dd_holding.specs.Facts.{IsTelling};
ghost use Rattle.dd_holding.specs.Holdings.{HasSlot, Holds, KeepsSlots, state_now};
ghost use Rattle.dd_holding.specs.Quiet.{is_steady};
ghost use Rattle.dd_holding.specs.Views.{here_versions};
ghost use Rattle.dd_machine.specs.declared.event.Event.TheVariants.{Come, Make, Put};
ghost use Rattle.dd_machine.specs.Effects.{after};
ghost use Rattle.dd_machine.specs.Legal.{Legal};
ghost use Rattle.dd_pool.specs.Places.{IsPlace};
ghost use Rattle.dd_pool.specs.Pools.{out_at};

use crate::holding::Holding;
use dd_machine::Entry;
use dd_pool::Spilled;
use dd_stamps::{Stamped, blank, fresh_fill};
use dd_store::{Store, StoreFault};
use dd_tables::rows::place;
use std::alloc::AllocError;

impl<'p, D: Store> Holding<'p, D> {
    /// Makes a Put, with the copy that holds what the array holds at first.
    ///
    /// # Errors
    /// Want of memory. All is as it was.
    pub fn put(&mut self, entry: Entry, block: u32) -> Result<(), AllocError>
        requires well { IsWellFormed self.old.ledger.plan.now }
        requires legal { Legal self.old.ledger.plan.now (state_now self.old) entry }
        requires event { entry.event ≡ Put block }
        ensures ok { OnOk result (Holds self.old self.new (entry ∷ [])) }
        ensures err { OnErr result (Holds self.old self.new []) }
        ensures slots { KeepsSlots self.old self.new }
    {
        let space = self.ledger.core().home(block);
        let copy = fresh_fill(self.alloc, self.ledger.plan(), block)?;
        self.add(entry, space, copy)
    }

    /// Makes a Make, with a copy that says nothing.
    ///
    /// # Errors
    /// Want of memory. All is as it was.
    pub fn make(&mut self, entry: Entry, task: u32, block: u32) -> Result<(), AllocError>
        requires well { IsWellFormed self.old.ledger.plan.now }
        requires legal { Legal self.old.ledger.plan.now (state_now self.old) entry }
        requires event { entry.event ≡ Make task block }
        ensures ok { OnOk result (Holds self.old self.new (entry ∷ [])) }
        ensures err { OnErr result (Holds self.old self.new []) }
        ensures slots { KeepsSlots self.old self.new }
    {
        let space = place(self.ledger.plan(), task);
        let copy = blank(self.alloc, self.ledger.plan(), block)?;
        self.add(entry, space, copy)
    }

    /// Makes a Come, with the values that the copy's slot has. The slot comes back in any case.
    ///
    /// # Errors
    /// `Disk`, a fault that the slot has counted, and want of memory.
    pub fn come(
        &mut self,
        entry: Entry,
        space: u32,
        block: u32,
    ) -> (D::Slot, Result<(), StoreFault>)
        requires well { IsWellFormed self.old.ledger.plan.now }
        requires legal { Legal self.old.ledger.plan.now (state_now self.old) entry }
        requires event { entry.event ≡ Come space block }
        requires slot { IsSome (out_at self.old.pool space block) }
        ensures ok { OnOk result.1 (Holds self.old self.new (entry ∷ [])) }
        ensures err { OnErr result.1 (Holds self.old self.new []) }
        ensures left { HasSlot self.old self.new space block None }
        ensures cause { IsErrOf result.1 StoreFault.Disk
            → IsSomeAnd (out_at self.old.pool space block) (λ o. Rose (D.Slot.faults o.slot) (D.Slot.faults result.0)) }
    {
        let Some(mut out) = self.pool.take_out(space, block) else {
            unreachable!()
        };
        let done = self.add_from(entry, space, &mut out);
        (out.into_slot(), done)
    }

    /// Makes an entry that gives a space a copy which it hasn't in memory, with that copy.
    pub(crate) fn add(
        &mut self,
        entry: Entry,
        space: u32,
        copy: Stamped<'p>,
    ) -> Result<(), AllocError>
        requires well { IsWellFormed self.old.ledger.plan.now }
        requires legal { Legal self.old.ledger.plan.now (state_now self.old) entry }
        requires kind { is_final entry.event ≡ false }
        requires steady { is_steady entry.event ≡ true }
        requires place { IsPlace self.old.ledger.plan.now space copy.block }
        requires adds { AddsCopy (state_now self.old) (after self.old.ledger.plan.now (state_now self.old) entry.event)
            self.old.pool space copy.block copy.versions.list }
        requires not_here { here_versions ((state_now self.old).copies space copy.block) ≡ None }
        requires no_slot { out_at self.old.pool space copy.block ≡ None }
        requires plan { copy.plan ≡ self.old.ledger.plan }
        requires told { IsTelling D.Slot.tells self.old.ledger → copy.told.mark ≡ true }
        ensures ok { OnOk result (Holds self.old self.new (entry ∷ [])) }
        ensures err { OnErr result (Holds self.old self.new []) }
        ensures slots { KeepsSlots self.old self.new }
    {
        let block = copy.block();
        let Ok(()) = self.pool.put(space, copy) else {
            return Err(AllocError);
        };
        let Err(fault) = self.ledger.enter(entry) else {
            return Ok(());
        };
        let _ = self.pool.take(space, block);
        Err(fault)
    }

    /// The same with the copy that a slot of the Plan has. The slot stays as it is.
    ///
    /// # Errors
    /// `Disk`, a fault that the slot has counted, and want of memory.
    pub(crate) fn add_from(
        &mut self,
        entry: Entry,
        space: u32,
        out: &mut Spilled<'p, D::Slot>,
    ) -> Result<(), StoreFault>
        requires well { IsWellFormed self.old.ledger.plan.now }
        requires legal { Legal self.old.ledger.plan.now (state_now self.old) entry }
        requires kind { is_final entry.event ≡ false }
        requires steady { is_steady entry.event ≡ true }
        requires place { IsPlace self.old.ledger.plan.now space out.old.block }
        requires adds { AddsCopy (state_now self.old) (after self.old.ledger.plan.now (state_now self.old) entry.event)
            self.old.pool space out.old.block out.old.versions.list }
        requires not_here { here_versions ((state_now self.old).copies space out.old.block) ≡ None }
        requires no_slot { out_at self.old.pool space out.old.block ≡ None }
        requires plan { out.old.plan ≡ self.old.ledger.plan }
        requires told { IsTelling D.Slot.tells self.old.ledger → (out.old.told.mark ≡ true) × (D.Slot.tells ≡ true) }
        ensures ok { OnOk result (Holds self.old self.new (entry ∷ [])) }
        ensures err { OnErr result (Holds self.old self.new []) }
        ensures slots { KeepsSlots self.old self.new }
        ensures cause { IsErrOf result StoreFault.Disk → Rose (D.Slot.faults out.old.slot) (D.Slot.faults out.new.slot) }
    {
        let copy = out.recall()?;
        self.add(entry, space, copy)?;
        Ok(())
    }
}
