//! Blocks that leave the memory and come back.
ghost use Rattle.std.specs.Prelude.{◌≡◌, ◌≤◌, ◌∷◌, [], true, List, None, IsErrOf, OnOk, OnErr, IfErr};
ghost use Rattle.dd_blocks.specs.WellFormed.{IsWellFormed};
ghost use Rattle.dd_causes.specs.Counts.{Rose};
ghost use Rattle.dd_holding.specs.Holdings.{Holds};
ghost use Rattle.dd_holding.specs.Holdings as holdings;
ghost use Rattle.dd_ledger.specs.Ledgers.{spare_of};
ghost use Rattle.dd_machine.specs.declared.event.Event.{Event as OneEvent};
ghost use Rattle.dd_machine.specs.declared.event.Event.TheVariants.{Call, Come, Gone, Pick};
ghost use Rattle.dd_machine.specs.Legal.{Legal, May};
ghost use Rattle.dd_machine.specs.Words.{IsOneOf, spaces};
ghost use Rattle.dd_table.specs.Facts.{IsSettled};
ghost use Rattle.dd_table.specs.Partly.{Partly};
ghost use Rattle.dd_table.specs.Spills.{RoomGives};
ghost use Rattle.dd_core.specs.Lines.{with_line};
ghost use Rattle.dd_table.specs.Tables.{Gives, IsLeft, state_now};

use crate::fault::{RunFault, keep};
use crate::table::Table;
use dd_holding::Holding;
use dd_machine::{Entry, Event};
use dd_pool::spill;
use dd_store::{Store, StoreFault};
use std::alloc::Global;

impl<'p, D: Store> Table<'p, D> {
    /// Spills victims of a space until its load is within its limit: a Pick and a Gone for each.
    ///
    /// # Errors
    /// A fault of the store or of a slot, and want of memory. It is kept, and the last Pick may have no Gone.
    pub(crate) fn make_room(&mut self, space: u32) -> Result<(), RunFault>
        requires well { IsWellFormed self.old.holding.ledger.plan.now }
        requires space { IsOneOf (spaces self.old.holding.ledger.plan.now) space }
        requires left { IsLeft self.old }
        requires running { self.old.cause ≡ None }
        ensures { (events : List OneEvent) × Gives self.old self.new events result
            × RoomGives self.old.holding.ledger.plan.now (state_now self.old) space events result }
    {
        while self.core().load(self.plan(), space) > self.plan().space(space).limit {
            let Some(block) = self.core().victim(self.plan(), space) else {
                unreachable!()
            };
            self.spill(space, block)?;
        }
        Ok(())
    }

    /// Spills a block: its Pick, and its Gone once its values are in a slot. The room for both entries is taken first, then the
    /// slot is made: so where no slot can be made there is no Pick.
    pub(crate) fn spill(&mut self, space: u32, block: u32) -> Result<(), RunFault>
        requires well { IsWellFormed self.old.holding.ledger.plan.now }
        requires left { IsLeft self.old }
        requires running { self.old.cause ≡ None }
        requires legal { May self.old.holding.ledger.plan.now (state_now self.old) (Pick space block) }
        ensures { Gives self.old self.new (Pick space block ∷ Gone space block ∷ []) result }
    {
        let line = self.line();
        if self.holding.reserve(2).is_err() {
            return Err(self.stop(StoreFault::Memory));
        }
        let slot = match self.store.make() {
            Ok(slot) => slot,
            Err(fault) => return Err(self.stop(fault)),
        };
        match leave(
            self.alloc,
            &mut self.holding,
            &mut self.store,
            line,
            space,
            block,
            slot,
        ) {
            Ok(()) => Ok(()),
            Err(fault) => Err(keep(&mut self.cause, fault)),
        }
    }

    /// Brings a pinned copy back that is Out: its Call, and its Come once its values were read. Its slot is ended.
    pub(crate) fn call(&mut self, space: u32, block: u32) -> Result<(), RunFault>
        requires well { IsWellFormed self.old.holding.ledger.plan.now }
        requires left { IsLeft self.old }
        requires running { self.old.cause ≡ None }
        requires legal { May self.old.holding.ledger.plan.now (state_now self.old) (Call space block) }
        ensures { Gives self.old self.new (Call space block ∷ Come space block ∷ []) result }
    {
        let line = self.line();
        match come_back(&mut self.holding, &mut self.store, line, space, block) {
            Ok(()) => Ok(()),
            Err(fault) => Err(keep(&mut self.cause, fault)),
        }
    }
}

/// Makes a Pick and a Gone of a block, which goes to an empty slot. The room for both is there.
///
/// # Errors
/// A fault of the slot, and want of memory. The copy is Leaving then, and its slot is ended.
fn leave<'p, D: Store>(
    alloc: Global,
    holding: &mut Holding<'p, D>,
    store: &mut D,
    line: u32,
    space: u32,
    block: u32,
    slot: D::Slot,
) -> Result<(), StoreFault>
    requires well { IsWellFormed holding.old.ledger.plan.now }
    requires legal { Legal holding.old.ledger.plan.now (holdings.state_now holding.old) (record { line = line; event = Pick space block }) }
    requires room { 2 ≤ spare_of holding.old.ledger }
    requires empty { D.Slot.tells ≡ true → D.Slot.content slot ≡ [] }
    requires settled { IsSettled holding.old None }
    ensures ok { OnOk result (Holds holding.old holding.new (with_line line (Pick space block ∷ Gone space block ∷ []))) }
    ensures err { OnErr result (Holds holding.old holding.new (with_line line (Pick space block ∷ []))) }
    ensures settled { OnOk result (IsSettled holding.new None) }
    ensures made { D.made store.new ≡ D.made store.old }
    ensures later { D.faults store.old ≤ D.faults store.new }
    ensures cause { IsErrOf result StoreFault.Disk → Rose (D.faults store.old) (D.faults store.new) }
{
    let event = Event::Pick { space, block };
    let copy = holding.pick(Entry { line, event }, space, block);
    let event = Event::Gone { space, block };
    match spill(alloc, copy, slot) {
        Ok(out) => match holding.gone(Entry { line, event }, space, block, out) {
            Ok(()) => Ok(()),
            Err(out) => {
                store.end(out.into_slot());
                Err(StoreFault::Memory)
            }
        },
        Err((slot, fault)) => {
            store.end(slot);
            Err(fault)
        }
    }
}

/// Makes a Call and a Come of a block, and ends its slot.
///
/// # Errors
/// A fault of the slot, and want of memory. The copy is Coming then, or it is Out still.
fn come_back<'p, D: Store>(
    holding: &mut Holding<'p, D>,
    store: &mut D,
    line: u32,
    space: u32,
    block: u32,
) -> Result<(), StoreFault>
    requires well { IsWellFormed holding.old.ledger.plan.now }
    requires legal { Legal holding.old.ledger.plan.now (holdings.state_now holding.old) (record { line = line; event = Call space block }) }
    requires settled { IsSettled holding.old None }
    ensures ok { OnOk result (Holds holding.old holding.new (with_line line (Call space block ∷ Come space block ∷ []))) }
    ensures err { OnErr result (Partly holding.old holding.new line (Call space block ∷ Come space block ∷ [])) }
    ensures settled { OnOk result (IsSettled holding.new None) }
    ensures made { D.made store.new ≡ D.made store.old }
    ensures later { D.faults store.old ≤ D.faults store.new }
    ensures cause { IsErrOf result StoreFault.Disk → Rose (D.faults store.old) (D.faults store.new) }
{
    let event = Event::Call { space, block };
    holding.note(Entry { line, event })?;
    let event = Event::Come { space, block };
    let (slot, done) = holding.come(Entry { line, event }, space, block);
    store.end(slot);
    done
}
