//! What the statements ask for.
ghost use Rattle.std.specs.Prelude.{◌≡◌, ◌<◌, ◌≤◌, ◌+◌, ◌-◌, ◌^◌, ◌∷◌, [], ◌++◌, ℕ, List, None, Some, IsErrOf, IsSome, OnErr, OnOk, cond, length, option_map};
ghost use Rattle.dd_blocks.specs.Numbered.{IsNumberIn};
ghost use Rattle.dd_blocks.specs.WellFormed.{IsWellFormed};
ghost use Rattle.dd_causes.specs.Counts.{Rose};
ghost use Rattle.dd_holding.specs.Holdings.{Holds};
ghost use Rattle.dd_holding.specs.Holdings as holdings;
ghost use Rattle.dd_machine.specs.declared.event.Event.{Event as OneEvent};
ghost use Rattle.dd_machine.specs.declared.event.Event.TheVariants.{Ask, Begin, Call, Close, Come, Free, Put, Rest, Shift};
ghost use Rattle.dd_machine.specs.Effects.{after};
ghost use Rattle.dd_machine.specs.Legal.{Legal, May};
ghost use Rattle.dd_machine.specs.Needed.{needed};
ghost use Rattle.dd_machine.specs.Tests.{Has, is_any, is_here, is_in_state, is_out};
ghost use Rattle.dd_machine.specs.Words.{IsOneOf, blocks};
ghost use Rattle.dd_pool.specs.Pools.{HasNames, names_of};
ghost use Rattle.dd_core.specs.Due.{AreDue};
ghost use Rattle.dd_table.specs.Facts.{IsSettled};
ghost use Rattle.dd_core.specs.Lines.{with_line};
ghost use Rattle.dd_table.specs.Pulls.{first_pull, pull_events, pulled};
ghost use Rattle.dd_table.specs.Spills.{RoomGives};
ghost use Rattle.dd_table.specs.Tables.{Enters, Gives, IsLeft, Renames, state_now};

use crate::fault::{RunFault, keep};
use crate::table::Table;
use dd_core::CopyState;
use dd_holding::Holding;
use dd_machine::{Entry, Event};
use dd_store::{Store, StoreFault};

impl<'p, D: Store> Table<'p, D> {
    /// Puts a block at its home: Ask, the spills that make room there, Put, Rest.
    ///
    /// # Errors
    /// The kept cause; a fault of the disk, which the store has counted; and want of memory.
    pub fn put_block(&mut self, block: u32) -> Result<(), RunFault>
        requires well { IsWellFormed self.old.holding.ledger.plan.now }
        requires block { IsOneOf (blocks self.old.holding.ledger.plan.now) block }
        requires legal { self.old.cause ≡ None → May self.old.holding.ledger.plan.now (state_now self.old) (Ask ((state_now self.old).homes block) block) }
        requires due { self.old.cause ≡ None → AreDue self.old.holding.ledger.plan.now (state_now self.old) (Ask ((state_now self.old).homes block) block ∷ Put block ∷ Rest ∷ []) }
        ensures { (spills : List OneEvent) × Gives self.old self.new (Ask ((state_now self.old).homes block) block ∷ (spills ++ (Put block ∷ Rest ∷ []))) result
            × RoomGives self.old.holding.ledger.plan.now
            (after self.old.holding.ledger.plan.now (state_now self.old) (Ask ((state_now self.old).homes block) block)) ((state_now self.old).homes block) spills result }
    {
        if let Some(cause) = self.cause {
            return Err(cause);
        }
        let space = self.core().home(block);
        self.ask(space, block)?;
        self.put(block)?;
        self.rest();
        Ok(())
    }

    // Asks for a block, and makes room in its space: the Ask, and the spills.
    fn ask(&mut self, space: u32, block: u32) -> Result<(), RunFault>
        requires well { IsWellFormed self.old.holding.ledger.plan.now }
        requires running { self.old.cause ≡ None }
        requires legal { May self.old.holding.ledger.plan.now (state_now self.old) (Ask space block) }
        ensures { (spills : List OneEvent) × Gives self.old self.new (Ask space block ∷ spills) result
            × RoomGives self.old.holding.ledger.plan.now (after self.old.holding.ledger.plan.now (state_now self.old) (Ask space block)) space spills result }
    {
        self.note(Event::Ask { space, block })?;
        self.make_room(space)
    }

    // Whether a copy is Out.
    fn is_out(&self, space: u32, block: u32) -> bool
        ensures { result ≡ is_in_state is_out ((state_now self.now).copies space block) }
    {
        matches!(self.copy_state(space, block), Some(CopyState::Out))
    }

    // The state of a copy.
    fn copy_state(&self, space: u32, block: u32) -> Option<CopyState>
        ensures { result ≡ option_map (λ c. c.state) ((state_now self.now).copies space block) }
    {
        self.core().copy(space, block)
    }

    // Makes the Put of a block.
    fn put(&mut self, block: u32) -> Result<(), RunFault>
        requires well { IsWellFormed self.old.holding.ledger.plan.now }
        requires left { IsLeft self.old }
        requires running { self.old.cause ≡ None }
        requires legal { May self.old.holding.ledger.plan.now (state_now self.old) (Put block) }
        ensures { Gives self.old self.new (Put block ∷ []) result }
    {
        let line = self.line();
        let event = Event::Put { block };
        match self.holding.put(Entry { line, event }, block) {
            Ok(()) => Ok(()),
            Err(_) => Err(self.stop(StoreFault::Memory)),
        }
    }

    /// Brings a block into the memory of a space: Ask, the spills that make room there, and Call and Come where the copy is Out. A
    /// copy that was there is Here then.
    ///
    /// # Errors
    /// The kept cause; a fault of the disk, which the store has counted; and want of memory.
    pub fn bring(&mut self, space: u32, block: u32) -> Result<(), RunFault>
        requires well { IsWellFormed self.old.holding.ledger.plan.now }
        requires legal { self.old.cause ≡ None → May self.old.holding.ledger.plan.now (state_now self.old) (Ask space block) }
        ensures gives { (spills : List OneEvent) × Gives self.old self.new (Ask space block
            ∷ (spills ++ cond (is_in_state is_out ((state_now self.old).copies space block)) (Call space block ∷ Come space block ∷ []) [])) result
            × RoomGives self.old.holding.ledger.plan.now (after self.old.holding.ledger.plan.now (state_now self.old) (Ask space block)) space spills result }
        ensures here { OnOk result (Has (state_now self.old) space block is_any → Has (state_now self.new) space block is_here) }
    {
        if let Some(cause) = self.cause {
            return Err(cause);
        }
        self.ask(space, block)?;
        if self.is_out(space, block) {
            self.call(space, block)
        } else {
            Ok(())
        }
    }

    /// Gives a block its home in another space, with its copy: Ask, the spills that make room there, Shift, Rest.
    ///
    /// # Errors
    /// The kept cause; a fault of the disk, which the store has counted; and want of memory.
    pub fn shift(&mut self, block: u32, space: u32) -> Result<(), RunFault>
        requires well { IsWellFormed self.old.holding.ledger.plan.now }
        requires legal { self.old.cause ≡ None → May self.old.holding.ledger.plan.now (state_now self.old) (Ask space block) }
        requires due { self.old.cause ≡ None → AreDue self.old.holding.ledger.plan.now (state_now self.old) (Ask space block ∷ Shift block space ∷ Rest ∷ []) }
        ensures { (spills : List OneEvent) × Gives self.old self.new (Ask space block ∷ (spills ++ (Shift block space ∷ Rest ∷ []))) result
            × RoomGives self.old.holding.ledger.plan.now (after self.old.holding.ledger.plan.now (state_now self.old) (Ask space block)) space spills result }
    {
        if let Some(cause) = self.cause {
            return Err(cause);
        }
        self.ask(space, block)?;
        self.move_home(block, space)?;
        self.rest();
        Ok(())
    }

    // Makes the Shift of a block, and ends the slot of its home copy.
    fn move_home(&mut self, block: u32, space: u32) -> Result<(), RunFault>
        requires well { IsWellFormed self.old.holding.ledger.plan.now }
        requires left { IsLeft self.old }
        requires running { self.old.cause ≡ None }
        requires legal { May self.old.holding.ledger.plan.now (state_now self.old) (Shift block space) }
        ensures { Gives self.old self.new (Shift block space ∷ []) result }
    {
        let line = self.line();
        match carry_home(&mut self.holding, &mut self.store, line, block, space) {
            Ok(()) => Ok(()),
            Err(fault) => Err(keep(&mut self.cause, fault)),
        }
    }

    /// Brings what the pinned home copy needs from another space: a Back, and before it a Lend where the copy there is Out. Where
    /// nothing is needed from that space, nothing is entered.
    ///
    /// # Errors
    /// The kept cause; a fault of the disk, which the store has counted; and want of memory.
    pub fn pull(&mut self, block: u32, source: u32) -> Result<(), RunFault>
        requires well { IsWellFormed self.old.holding.ledger.plan.now }
        requires block { IsOneOf (blocks self.old.holding.ledger.plan.now) block }
        requires legal { self.old.cause ≡ None → 0 < length (needed self.old.holding.ledger.plan.now (state_now self.old) 0 block source)
            → May self.old.holding.ledger.plan.now (state_now self.old) (first_pull self.old.holding.ledger.plan.now (state_now self.old) block source) }
        ensures { Gives self.old self.new (pulled self.old.holding.ledger.plan.now (state_now self.old) block source) result }
    {
        if let Some(cause) = self.cause {
            return Err(cause);
        }
        if self.core().needed_len(self.plan(), 0, block, source) == 0 {
            return Ok(());
        }
        self.pull_some(block, source)
    }

    // Brings what the home copy needs, where that is anything.
    fn pull_some(&mut self, block: u32, source: u32) -> Result<(), RunFault>
        requires well { IsWellFormed self.old.holding.ledger.plan.now }
        requires running { self.old.cause ≡ None }
        requires legal { May self.old.holding.ledger.plan.now (state_now self.old) (first_pull self.old.holding.ledger.plan.now (state_now self.old) block source) }
        ensures { Gives self.old self.new (pull_events self.old.holding.ledger.plan.now (state_now self.old) block source) result }
    {
        if self.is_out(source, block) {
            self.lend(0, block, source)
        } else {
            self.copy(0, block, source)
        }
    }

    /// Frees a copy, and ends its slot. It takes no memory.
    pub fn free(&mut self, space: u32, block: u32)
        requires well { IsWellFormed self.old.holding.ledger.plan.now }
        requires legal { May self.old.holding.ledger.plan.now (state_now self.old) (Free space block) }
        ensures { Enters self.old self.new (Free space block ∷ []) }
    {
        let line = self.line();
        let event = Event::Free { space, block };
        if let Some(slot) = self.holding.free(Entry { line, event }, space, block) {
            self.store.end(slot);
        }
    }

    /// Gives an array a name. It takes no memory.
    pub fn share(&mut self, array: u32)
        requires array { IsNumberIn self.old.holding.ledger.plan.now.arrays array }
        requires fewer { names_of self.old.holding.pool array < 2 ^ 32 - 1 }
        ensures names { HasNames self.old.holding.pool self.new.holding.pool array (names_of self.old.holding.pool array + 1) }
        ensures same { Renames self.old self.new }
    {
        self.holding.share(array);
    }

    /// Takes a name of an array off, and answers how many are left. It takes no memory.
    pub fn release(&mut self, array: u32) -> u32
        requires array { IsNumberIn self.old.holding.ledger.plan.now.arrays array }
        requires named { 1 ≤ names_of self.old.holding.pool array }
        ensures left { result + 1 ≡ names_of self.old.holding.pool array }
        ensures names { HasNames self.old.holding.pool self.new.holding.pool array result }
        ensures same { Renames self.old self.new }
    {
        self.holding.release(array)
    }

    /// Begins a region.
    ///
    /// # Errors
    /// The kept cause, and want of memory.
    pub fn begin(&mut self, region: u32) -> Result<(), RunFault>
        requires well { IsWellFormed self.old.holding.ledger.plan.now }
        requires legal { self.old.cause ≡ None → May self.old.holding.ledger.plan.now (state_now self.old) (Begin region) }
        ensures { Gives self.old self.new (Begin region ∷ []) result }
    {
        if let Some(cause) = self.cause {
            return Err(cause);
        }
        self.note(Event::Begin { region })
    }

    /// Gives the pin up.
    pub fn rest(&mut self)
        requires well { IsWellFormed self.old.holding.ledger.plan.now }
        requires legal { May self.old.holding.ledger.plan.now (state_now self.old) Rest }
        ensures { Enters self.old self.new (Rest ∷ []) }
    {
        let line = self.line();
        let event = Event::Rest;
        self.holding.conclude(Entry { line, event });
    }

    /// Ends the open region.
    pub fn close_region(&mut self)
        requires well { IsWellFormed self.old.holding.ledger.plan.now }
        requires open { IsSome (state_now self.old).region }
        requires legal { (region : ℕ) → (state_now self.old).region ≡ Some region → May self.old.holding.ledger.plan.now (state_now self.old) (Close region) }
        ensures { (region : ℕ) → (state_now self.old).region ≡ Some region → Enters self.old self.new (Close region ∷ []) }
    {
        let Some(region) = self.core().region() else {
            unreachable!()
        };
        let line = self.line();
        let event = Event::Close { region };
        self.holding.conclude(Entry { line, event });
    }
}

/// Makes a Shift of a block, and ends the slot that its home copy had.
///
/// # Errors
/// A fault of the slot, and want of memory. The slot is ended then too.
fn carry_home<'p, D: Store>(
    holding: &mut Holding<'p, D>,
    store: &mut D,
    line: u32,
    block: u32,
    space: u32,
) -> Result<(), StoreFault>
    requires well { IsWellFormed holding.old.ledger.plan.now }
    requires legal { Legal holding.old.ledger.plan.now (holdings.state_now holding.old) (record { line = line; event = Shift block space }) }
    requires settled { IsSettled holding.old None }
    ensures ok { OnOk result (Holds holding.old holding.new (with_line line (Shift block space ∷ []))) }
    ensures err { OnErr result (Holds holding.old holding.new []) }
    ensures settled { OnOk result (IsSettled holding.new None) }
    ensures made { D.made store.new ≡ D.made store.old }
    ensures later { D.faults store.old ≤ D.faults store.new }
    ensures cause { IsErrOf result StoreFault.Disk → Rose (D.faults store.old) (D.faults store.new) }
{
    let event = Event::Shift { block, space };
    let (slot, done) = holding.shift(Entry { line, event }, block, space);
    if let Some(slot) = slot {
        store.end(slot);
    }
    done
}
