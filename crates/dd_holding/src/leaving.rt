//! Copies that leave the memory.
ghost use Rattle.std.specs.Prelude.{◌≡◌, ◌+◌, ◌≤◌, ◌∷◌, [], true, None, Some, IfErr, OnOk, OnErr, option_map};
ghost use Rattle.dd_blocks.specs.WellFormed.{IsWellFormed};
ghost use Rattle.dd_holding.specs.Facts.{IsTelling};
ghost use Rattle.dd_holding.specs.Holdings.{HasSlot, Holds, KeepsSlots, state_now};
ghost use Rattle.dd_ledger.specs.Ledgers.{spare_of};
ghost use Rattle.dd_machine.specs.declared.event.Event.TheVariants.{Free, Gone, Pick};
ghost use Rattle.dd_machine.specs.Legal.{Legal};
ghost use Rattle.dd_machine.specs.Tests.{versions_of};
ghost use Rattle.dd_pool.specs.Places.{IsPlace};
ghost use Rattle.dd_pool.specs.Pools.{copy_at, out_at};

use crate::holding::Holding;
use dd_machine::Entry;
use dd_pool::Spilled;
use dd_stamps::Stamped;
use dd_store::Store;

impl<'p, D: Store> Holding<'p, D> {
    /// Makes a Pick, for which there is room. It takes no memory. The copy comes out.
    pub fn pick(&mut self, entry: Entry, space: u32, block: u32) -> Stamped<'p>
        requires well { IsWellFormed self.old.ledger.plan.now }
        requires legal { Legal self.old.ledger.plan.now (state_now self.old) entry }
        requires event { entry.event ≡ Pick space block }
        requires room { 1 ≤ spare_of self.old.ledger }
        ensures grows { Holds self.old self.new (entry ∷ []) }
        ensures copy { copy_at self.old.pool space block ≡ Some result }
        ensures ours { (result.plan ≡ self.old.ledger.plan) × (result.block ≡ block) }
        ensures versions { result.versions.list ≡ versions_of ((state_now self.old).copies space block) }
        ensures told { IsTelling D.Slot.tells self.old.ledger → result.told.mark ≡ true }
        ensures room { spare_of self.new.ledger + 1 ≡ spare_of self.old.ledger }
        ensures slots { KeepsSlots self.old self.new }
    {
        self.ledger.leave(entry);
        match self.pool.take(space, block) {
            Some(copy) => copy,
            None => unreachable!(),
        }
    }

    /// Makes a Gone, for which there is room, with the slot that the copy was written to.
    ///
    /// # Errors
    /// Want of memory. The slot comes back, and all is as it was.
    pub fn gone(
        &mut self,
        entry: Entry,
        space: u32,
        block: u32,
        out: Spilled<'p, D::Slot>,
    ) -> Result<(), Spilled<'p, D::Slot>>
        requires well { IsWellFormed self.old.ledger.plan.now }
        requires legal { Legal self.old.ledger.plan.now (state_now self.old) entry }
        requires event { entry.event ≡ Gone space block }
        requires room { 1 ≤ spare_of self.old.ledger }
        requires plan { out.plan ≡ self.old.ledger.plan }
        requires block { out.block ≡ block }
        requires versions { out.versions.list ≡ versions_of ((state_now self.old).copies space block) }
        requires told { IsTelling D.Slot.tells self.old.ledger → out.told.mark ≡ true }
        ensures ok { OnOk result (Holds self.old self.new (entry ∷ []) × HasSlot self.old self.new space block (Some out.entry)) }
        ensures err { OnErr result (Holds self.old self.new [] × KeepsSlots self.old self.new) }
        ensures back { IfErr result (λ o. o ≡ out.entry) }
    {
        match self.pool.put_out(space, block, out) {
            Ok(()) => {
                self.ledger.leave(entry);
                Ok(())
            }
            Err((out, _)) => Err(out),
        }
    }

    /// Makes a Free. It takes no memory. The slot of the copy comes back, where it had one.
    pub fn free(&mut self, entry: Entry, space: u32, block: u32) -> Option<D::Slot>
        requires well { IsWellFormed self.old.ledger.plan.now }
        requires legal { Legal self.old.ledger.plan.now (state_now self.old) entry }
        requires event { entry.event ≡ Free space block }
        ensures grows { Holds self.old self.new (entry ∷ []) }
        ensures slot { result ≡ option_map (λ o. o.slot) (out_at self.old.pool space block) }
        ensures left { HasSlot self.old self.new space block None }
    {
        let out = self.pool.take_out(space, block);
        let _ = self.pool.take(space, block);
        self.ledger.finish(entry);
        Some(out?.into_slot())
    }

    /// Takes the slot of a block of a space out, where there is one. It takes no memory.
    pub fn take_slot(&mut self, space: u32, block: u32) -> Option<D::Slot>
        requires { IsPlace self.old.ledger.plan.now space block }
        ensures kept { Holds self.old self.new [] }
        ensures slot { result ≡ option_map (λ o. o.slot) (out_at self.old.pool space block) }
        ensures left { HasSlot self.old self.new space block None }
    {
        Some(self.pool.take_out(space, block)?.into_slot())
    }
}
