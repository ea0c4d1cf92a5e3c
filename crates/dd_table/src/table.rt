ghost use Rattle.dd_table.specs.Counts.{IsCounted, IsCounted-prop};
ghost use Rattle.dd_table.specs.Facts.{IsSettled, IsSettled-prop};

use crate::fault::{RunFault, keep};
use dd_blocks::Plan;
use dd_core::Core;
use dd_holding::Holding;
use dd_machine::{Entry, Event};
use dd_store::{Store, StoreFault};
use std::alloc::{AllocError, Global};
use std::snapshot::Snapshot;

/// A run: its journal, the copies that its entries leave, the store of its slots, and why it stopped, if it did.
#[derive(Drop)]
pub struct Table<'p, D: Store> {
    pub(crate) holding: Holding<'p, D>,
    pub(crate) store: D,
    // The store as it was handed in.
    pub(crate) opening: Snapshot<D>,
    pub(crate) cause: Option<RunFault>,
    pub(crate) alloc: Global,
    ghost settled: { IsSettled holding cause } by { IsSettled-prop holding cause },
    ghost counted: { IsCounted (D.faults opening.value) (D.made opening.value) (D.faults store) (D.made store) cause holding.ledger.journal.items } by { IsCounted-prop (D.faults opening.value) (D.made opening.value) (D.faults store) (D.made store) cause holding.ledger.journal.items },
}

impl<'p, D: Store> Table<'p, D> {
    ghost use Rattle.std.specs.Prelude.{◌≡◌, ◌≤◌, ◌^◌, ℕ, ◌∷◌, [], true, false, None, Some, IfOk, IfErr, IsSomeAnd};
    ghost use Rattle.dd_blocks.specs.Numbered.{IsNumberIn};
    ghost use Rattle.dd_blocks.specs.WellFormed.{IsWellFormed};
    ghost use Rattle.dd_causes.specs.Counts.{Rose};
    ghost use Rattle.dd_machine.specs.Legal.{May};
    ghost use Rattle.dd_machine.specs.Owed.{left, next_line};
    ghost use Rattle.dd_machine.specs.Tests.{Has, is_here};
    ghost use Rattle.dd_pool.specs.Places.{IsPlace};
    ghost use Rattle.dd_pool.specs.Pools.{copy_at, names_of};
    ghost use Rattle.dd_table.specs.Causes.{fault_of};
    ghost use Rattle.dd_table.specs.Quiet.{is_still};
    ghost use Rattle.dd_table.specs.Tables.{Gives, GrowsBy, IsLeft, line_now, state_now};

    /// A run without entries, over a store that has made at most 2^62 slots.
    ///
    /// # Errors
    /// Want of memory. The store comes back as it was.
    pub fn new(alloc: Global, plan: &'p Plan, store: D) -> Result<Table<'p, D>, (D, AllocError)>
        requires well { IsWellFormed plan.now }
        requires few { D.made store ≤ 2 ^ 62 }
        ensures plan { IfOk result (λ t. t.holding.ledger.plan ≡ plan.entry) }
        ensures empty { IfOk result (λ t. t.holding.ledger.journal.items ≡ []) }
        ensures names { IfOk result (λ t. (a : ℕ) → IsNumberIn plan.now.arrays a → names_of t.holding.pool a ≡ 0) }
        ensures opening { IfOk result (λ t. t.opening.value ≡ store) }
        ensures cause { IfOk result (λ t. t.cause ≡ None) }
        ensures back { IfErr result (λ e. e.0 ≡ store) }
    {
        match Holding::new(alloc, plan) {
            Ok(holding) => Ok(Table {
                holding,
                opening: Snapshot::of(&store),
                store,
                cause: None,
                alloc,
            }),
            Err(fault) => Err((store, fault)),
        }
    }

    /// The Plan that it runs.
    pub fn plan(&self) -> &'p Plan
        ensures { result ≡ self.now.holding.ledger.plan }
    {
        self.holding.ledger().plan()
    }

    /// The entries so far.
    pub fn journal(&self) -> &Vec<Entry>
        ensures { result.now ≡ self.now.holding.ledger.journal }
    {
        self.holding.ledger().journal()
    }

    /// The core.
    pub fn core(&self) -> &Core
        ensures { result.now ≡ self.now.holding.ledger.core }
    {
        self.holding.ledger().core()
    }

    /// How many elements moved so far.
    pub fn moved(&self) -> u64
        ensures { result ≡ (state_now self.now).moved }
    {
        self.core().moved()
    }

    /// Why the run stopped.
    pub fn cause(&self) -> Option<RunFault>
        ensures { result ≡ self.now.cause }
    {
        self.cause
    }

    // The line that the next entry has.
    pub(crate) fn line(&self) -> u32
        requires well { IsWellFormed self.now.holding.ledger.plan.now }
        requires left { IsLeft self.now }
        ensures next { next_line (left self.now.holding.ledger.plan.now (state_now self.now).progress) ≡ Some result }
        ensures line { result ≡ line_now self.now }
    {
        match self.holding.ledger().line() {
            Some(line) => line,
            None => unreachable!(),
        }
    }

    // Keeps why the run stops. The store has counted a fault of the disk since the call began.
    pub(crate) fn stop(&mut self, fault: StoreFault) -> RunFault
        requires disk { fault ≡ StoreFault.Disk → Rose (D.faults self.old.opening.value) (D.faults self.old.store) }
        ensures grows { GrowsBy self.old self.new [] }
        ensures store { self.new.store ≡ self.old.store }
        ensures cause { self.new.cause ≡ Some result }
        ensures fault { result ≡ fault_of fault }
    {
        keep(&mut self.cause, fault)
    }

    // Makes an entry that changes no copy, and doesn't end anything.
    pub(crate) fn note(&mut self, event: Event) -> Result<(), RunFault>
        requires well { IsWellFormed self.old.holding.ledger.plan.now }
        requires left { IsLeft self.old }
        requires running { self.old.cause ≡ None }
        requires legal { May self.old.holding.ledger.plan.now (state_now self.old) event }
        requires still { is_still event ≡ true }
        ensures { Gives self.old self.new (event ∷ []) result }
    {
        let line = self.line();
        match self.holding.note(Entry { line, event }) {
            Ok(()) => Ok(()),
            Err(_) => Err(self.stop(StoreFault::Memory)),
        }
    }

    /// The values of a copy that is Here.
    pub fn values(&self, space: u32, block: u32) -> &[i64]
        requires place { IsPlace self.now.holding.ledger.plan.now space block }
        requires here { Has (state_now self.now) space block is_here }
        ensures { IsSomeAnd (copy_at self.now.holding.pool space block) (λ c. result.now ≡ c.values.items) }
    {
        self.holding.values(space, block)
    }
}
