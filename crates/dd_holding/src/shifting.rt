//! Home copies that go to another space.
ghost use Rattle.std.specs.Prelude.{◌≡◌, ◌∷◌, [], None, IfErr, IsErrOf, OnOk, OnErr, IsSome, IsSomeAnd};
ghost use Rattle.dd_blocks.specs.WellFormed.{IsWellFormed};
ghost use Rattle.dd_causes.specs.Counts.{Rose};
ghost use Rattle.dd_holding.specs.Holdings.{HasSlot, Holds, KeepsSlots, state_now};
ghost use Rattle.dd_machine.specs.declared.event.Event.TheVariants.{Shift};
ghost use Rattle.dd_machine.specs.Legal.{Legal};
ghost use Rattle.dd_machine.specs.Tests.{Has, is_here, is_out};
ghost use Rattle.dd_pool.specs.Pools.{out_at};

use crate::holding::Holding;
use dd_machine::Entry;
use dd_store::{Store, StoreFault};

impl<'p, D: Store> Holding<'p, D> {
    /// Makes a Shift: the home copy of a block, Here or Out, goes to another space. Its slot comes back, where it had one.
    ///
    /// # Errors
    /// `Disk`, a fault that the slot has counted, and want of memory.
    pub fn shift(
        &mut self,
        entry: Entry,
        block: u32,
        space: u32,
    ) -> (Option<D::Slot>, Result<(), StoreFault>)
        requires well { IsWellFormed self.old.ledger.plan.now }
        requires legal { Legal self.old.ledger.plan.now (state_now self.old) entry }
        requires event { entry.event ≡ Shift block space }
        requires slot { Has (state_now self.old) ((state_now self.old).homes block) block is_out
            → IsSome (out_at self.old.pool ((state_now self.old).homes block) block) }
        ensures ok { OnOk result.1 (Holds self.old self.new (entry ∷ [])) }
        ensures err { OnErr result.1 (Holds self.old self.new []) }
        ensures left { HasSlot self.old self.new ((state_now self.old).homes block) block None }
        ensures cause { IsErrOf result.1 StoreFault.Disk
            → IsSomeAnd (out_at self.old.pool ((state_now self.old).homes block) block) (λ o. IsSomeAnd result.0 (λ slot. Rose (D.Slot.faults o.slot) (D.Slot.faults slot))) }
    {
        let home = self.ledger.core().home(block);
        let Some(mut out) = self.pool.take_out(home, block) else {
            return (None, self.shift_here(entry, home, block, space));
        };
        let done = self.add_from(entry, space, &mut out);
        (Some(out.into_slot()), done)
    }

    // The same of a copy that is Here.
    fn shift_here(
        &mut self,
        entry: Entry,
        home: u32,
        block: u32,
        space: u32,
    ) -> Result<(), StoreFault>
        requires well { IsWellFormed self.old.ledger.plan.now }
        requires legal { Legal self.old.ledger.plan.now (state_now self.old) entry }
        requires event { entry.event ≡ Shift block space }
        requires home { home ≡ (state_now self.old).homes block }
        requires here { Has (state_now self.old) home block is_here }
        ensures ok { OnOk result (Holds self.old self.new (entry ∷ [])) }
        ensures err { OnErr result (Holds self.old self.new []) }
        ensures memory { IfErr result (λ e. e ≡ StoreFault.Memory) }
        ensures slots { KeepsSlots self.old self.new }
    {
        self.ledger.enter(entry)?;
        self.pool.shift(home, block, space);
        Ok(())
    }
}
