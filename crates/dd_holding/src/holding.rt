ghost use Rattle.std.specs.Prelude.{◌≡◌};
ghost use Rattle.dd_holding.specs.Facts.{IsHolding, IsHolding-prop};
ghost use Rattle.dd_holding.specs.Users.{HasSpare, HasSpare-prop};
ghost use Rattle.dd_ledger.specs.Ledgers.{state_now};

use dd_blocks::Plan;
use dd_ledger::Ledger;
use dd_machine::Entry;
use dd_pool::Pool;
use dd_store::Store;
use std::alloc::{AllocError, Global};

/// The copies of a run, in memory and in slots, and its ledger.
#[derive(Drop)]
pub struct Holding<'p, D: Store> {
    pub(crate) alloc: Global,
    pub(crate) ledger: Ledger<'p>,
    pub(crate) pool: Pool<'p, D>,
    ghost facts: { IsHolding ledger pool } by { IsHolding-prop ledger pool },
    ghost spare: { HasSpare ledger.plan.now (state_now ledger) pool } by { HasSpare-prop ledger.plan.now (state_now ledger) pool },
}

impl<'p, D: Store> Holding<'p, D> {
    ghost use Rattle.std.specs.Prelude.{◌+◌, ◌-◌, ◌^◌, ◌<◌, ◌≤◌, ℕ, ◌∷◌, [], true, false, None, Some, IfOk, OnOk, OnErr, IsSomeAnd};
    ghost use Rattle.dd_blocks.specs.Numbered.{IsNumberIn};
    ghost use Rattle.dd_blocks.specs.WellFormed.{IsWellFormed};
    ghost use Rattle.dd_core.specs.Finals.{is_final};
    ghost use Rattle.dd_holding.specs.Holdings.{Holds, KeepsSlots};
    ghost use Rattle.dd_holding.specs.Quiet.{is_quiet};
    ghost use Rattle.dd_ledger.specs.Endings.{ends};
    ghost use Rattle.dd_ledger.specs.Ledgers.{GrowsBy, spare_of};
    ghost use Rattle.dd_machine.specs.Legal.{Legal};
    ghost use Rattle.dd_machine.specs.Tests.{Has, is_here};
    ghost use Rattle.dd_pool.specs.Places.{IsPlace};
    ghost use Rattle.dd_pool.specs.Pools.{HasNames, copy_at, names_of, out_at};

    /// No entries, copies, slots and names.
    ///
    /// # Errors
    /// Want of memory.
    pub fn new(alloc: Global, plan: &'p Plan) -> Result<Holding<'p, D>, AllocError>
        requires { IsWellFormed plan.now }
        ensures plan { IfOk result (λ x. x.ledger.plan ≡ plan.entry) }
        ensures empty { IfOk result (λ x. x.ledger.journal.items ≡ []) }
        ensures names { IfOk result (λ x. (a : ℕ) → IsNumberIn plan.now.arrays a → names_of x.pool a ≡ 0) }
        ensures slots { IfOk result (λ x. (s b : ℕ) → out_at x.pool s b ≡ None) }
    {
        let ledger = Ledger::new(alloc, plan)?;
        let pool = Pool::new(alloc, plan)?;
        Ok(Holding {
            alloc,
            ledger,
            pool,
        })
    }

    /// The ledger.
    pub fn ledger(&self) -> &Ledger<'p>
        ensures { result.now ≡ self.now.ledger }
    {
        &self.ledger
    }

    /// The values of a copy that is Here.
    pub fn values(&self, space: u32, block: u32) -> &[i64]
        requires place { IsPlace self.now.ledger.plan.now space block }
        requires here { Has (state_now self.now.ledger) space block is_here }
        ensures { IsSomeAnd (copy_at self.now.pool space block) (λ c. result.now ≡ c.values.items) }
    {
        match self.pool.copy_at(space, block) {
            Some(copy) => copy.values(),
            None => unreachable!(),
        }
    }

    /// Makes room in the journal for more entries.
    ///
    /// # Errors
    /// Want of memory.
    pub fn reserve(&mut self, more: u32) -> Result<(), AllocError>
        ensures kept { Holds self.old self.new [] }
        ensures slots { KeepsSlots self.old self.new }
        ensures ok { OnOk result (more ≤ spare_of self.new.ledger) }
    {
        self.ledger.reserve(more)
    }

    /// Makes an entry that touches no values, and isn't one of `conclude`.
    ///
    /// # Errors
    /// Want of memory. All is as it was.
    pub fn note(&mut self, entry: Entry) -> Result<(), AllocError>
        requires well { IsWellFormed self.old.ledger.plan.now }
        requires legal { Legal self.old.ledger.plan.now (state_now self.old.ledger) entry }
        requires quiet { is_quiet entry.event ≡ true }
        requires kind { is_final entry.event ≡ false }
        ensures ok { OnOk result (Holds self.old self.new (entry ∷ [])) }
        ensures err { OnErr result (Holds self.old self.new []) }
        ensures slots { KeepsSlots self.old self.new }
    {
        self.ledger.enter(entry)
    }

    /// Makes a Rest or a Close. It takes no memory.
    pub fn conclude(&mut self, entry: Entry)
        requires well { IsWellFormed self.old.ledger.plan.now }
        requires legal { Legal self.old.ledger.plan.now (state_now self.old.ledger) entry }
        requires quiet { is_quiet entry.event ≡ true }
        requires kind { ends entry.event ≡ 1 }
        ensures grows { Holds self.old self.new (entry ∷ []) }
        ensures slots { KeepsSlots self.old self.new }
    {
        self.ledger.finish(entry);
    }

    /// Gives an array a name. It takes no memory.
    pub fn share(&mut self, array: u32)
        requires array { IsNumberIn self.old.ledger.plan.now.arrays array }
        requires fewer { names_of self.old.pool array < 2 ^ 32 - 1 }
        ensures grows { GrowsBy self.old.ledger self.new.ledger [] }
        ensures names { HasNames self.old.pool self.new.pool array (names_of self.old.pool array + 1) }
    {
        self.pool.share(array);
    }

    /// Takes a name of an array off, and answers how many are left. It takes no memory.
    pub fn release(&mut self, array: u32) -> u32
        requires array { IsNumberIn self.old.ledger.plan.now.arrays array }
        requires named { 1 ≤ names_of self.old.pool array }
        ensures grows { GrowsBy self.old.ledger self.new.ledger [] }
        ensures left { result + 1 ≡ names_of self.old.pool array }
        ensures names { HasNames self.old.pool self.new.pool array result }
    {
        self.pool.release(array)
    }

    /// The entries alone.
    pub fn into_journal(self) -> Vec<Entry>
        ensures { result.items ≡ self.entry.ledger.journal.items }
    {
        self.ledger.into_journal()
    }
}
