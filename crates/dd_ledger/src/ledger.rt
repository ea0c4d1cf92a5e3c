ghost use Rattle.std.specs.Prelude.{◌≡◌, ◌+◌, ◌≤◌, vec_capacity, vec_len};
ghost use Rattle.dd_ledger.specs.Facts.{IsLedger, IsLedger-prop};

use crate::endings::opens;
use crate::picks::{is_before, or_first};
use dd_blocks::Plan;
use dd_core::Core;
use dd_machine::Entry;
use std::alloc::{AllocError, Global};

/// The entries of a run so far, and the core that is in the state after them.
#[derive(Drop)]
pub struct Ledger<'p> {
    pub(crate) plan: &'p Plan,
    pub(crate) core: Core,
    pub(crate) journal: Vec<Entry>,
    // How many entries stand before the first Pick, if there is one.
    pub(crate) first_pick: Option<usize>,
    // For how many endings the journal keeps room.
    pub(crate) owed: usize,
    ghost facts: { IsLedger plan.now core journal.items first_pick owed } by { IsLedger-prop plan.now core journal.items first_pick owed },
    ghost room: { vec_len journal + owed ≤ vec_capacity journal },
}

impl<'p> Ledger<'p> {
    ghost use Rattle.std.specs.Prelude.{◌∷◌, [], true, false, IfOk, OnOk, OnErr, take};
    ghost use Rattle.dd_blocks.specs.WellFormed.{IsWellFormed};
    ghost use Rattle.dd_core.specs.Finals.{is_final};
    ghost use Rattle.dd_ledger.specs.Endings.{ends};
    ghost use Rattle.dd_ledger.specs.Ledgers.{GrowsBy, spare_of, state_now};
    ghost use Rattle.dd_machine.specs.Legal.{Legal};
    ghost use Rattle.dd_machine.specs.Owed.{left, next_line};
    ghost use Rattle.dd_machine.specs.Runs.{has_pick};

    /// No entries, and the core before the first.
    ///
    /// # Errors
    /// Want of memory.
    #[tactic(auto, using(crate::proofs::EnteredLemmas::begun))]
    pub fn new(alloc: Global, plan: &'p Plan) -> Result<Ledger<'p>, AllocError>
        requires { IsWellFormed plan.now }
        ensures plan { IfOk result (λ l. l.plan ≡ plan.entry) }
        ensures empty { IfOk result (λ l. l.journal.items ≡ []) }
    {
        Ok(Ledger {
            plan,
            core: Core::new(alloc, plan)?,
            journal: Vec::new(alloc),
            first_pick: None,
            owed: 0,
        })
    }

    /// The Plan that it is of.
    pub fn plan(&self) -> &'p Plan
        ensures { result ≡ self.now.plan }
    {
        self.plan
    }

    /// The core.
    pub fn core(&self) -> &Core
        ensures { result.now ≡ self.now.core }
    {
        &self.core
    }

    /// The entries, the first one first.
    pub fn journal(&self) -> &Vec<Entry>
        ensures { result.now ≡ self.now.journal }
    {
        &self.journal
    }

    /// Whether an entry is a Pick. It goes through no entries.
    #[tactic(auto, using(crate::proofs::PicksLemmas::has_any))]
    pub fn picked(&self) -> bool
        ensures { result ≡ has_pick self.now.journal.items }
    {
        self.first_pick.is_some()
    }

    /// Whether one of so many entries, from the first on, is a Pick. It goes through no entries.
    pub fn picked_by(&self, number: usize) -> bool
        ensures { result ≡ has_pick (take number self.now.journal.items) }
    {
        is_before(self.first_pick, number)
    }

    /// The line that the next entry has. None comes exactly where all entries of all rows were made.
    pub fn line(&self) -> Option<u32>
        requires { IsWellFormed self.now.plan.now }
        ensures { result ≡ next_line (left self.now.plan.now (state_now self.now).progress) }
    {
        self.core.line(self.plan)
    }

    /// Makes room for more entries, beside the endings that room is kept for.
    ///
    /// # Errors
    /// Want of memory.
    pub fn reserve(&mut self, more: u32) -> Result<(), AllocError>
        ensures kept { GrowsBy self.old self.new [] }
        ensures ok { OnOk result (more ≤ spare_of self.new) }
    {
        self.journal.reserve(self.owed + more as usize)
    }

    /// Makes a legal entry that isn't one of those of `finish` and `leave`.
    ///
    /// # Errors
    /// Want of memory. The journal stays as it is.
    pub fn enter(&mut self, entry: Entry) -> Result<(), AllocError>
        requires well { IsWellFormed self.old.plan.now }
        requires legal { Legal self.old.plan.now (state_now self.old) entry }
        requires kind { is_final entry.event ≡ false }
        ensures ok { OnOk result (GrowsBy self.old self.new (entry ∷ [])) }
        ensures err { OnErr result (GrowsBy self.old self.new []) }
    {
        let more = opens(entry.event);
        self.journal.reserve(self.owed + more + 1)?;
        self.core.step(self.plan, entry)?;
        self.journal.push_reserved(entry);
        self.owed += more;
        Ok(())
    }

    /// Makes a legal Finish, Rest, Free or Close. It takes no memory.
    pub fn finish(&mut self, entry: Entry)
        requires well { IsWellFormed self.old.plan.now }
        requires legal { Legal self.old.plan.now (state_now self.old) entry }
        requires kind { ends entry.event ≡ 1 }
        ensures { GrowsBy self.old self.new (entry ∷ []) }
    {
        self.core.finish(self.plan, entry);
        self.journal.push_reserved(entry);
        self.owed -= 1;
    }

    /// Makes a legal Pick or Gone, for which there is room. It takes no memory.
    pub fn leave(&mut self, entry: Entry)
        requires well { IsWellFormed self.old.plan.now }
        requires legal { Legal self.old.plan.now (state_now self.old) entry }
        requires kind { is_final entry.event ≡ true }
        requires other { ends entry.event ≡ 0 }
        requires room { 1 ≤ spare_of self.old }
        ensures grows { GrowsBy self.old self.new (entry ∷ []) }
        ensures room { spare_of self.new + 1 ≡ spare_of self.old }
    {
        self.core.finish(self.plan, entry);
        self.first_pick = or_first(self.first_pick, self.journal.len(), entry.event);
        self.journal.push_reserved(entry);
    }

    /// The entries alone.
    pub fn into_journal(self) -> Vec<Entry>
        ensures { result.items ≡ self.entry.journal.items }
    {
        self.journal
    }
}
