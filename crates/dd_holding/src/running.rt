//! Tasks that begin to run, and end.
ghost use Rattle.std.specs.Prelude.{◌≡◌, ◌==◌, ◌≤◌, ℕ, ◌∷◌, [], true, not, Some, IfOk, OnOk, OnErr, IsSomeAnd, Contains, All};
ghost use Rattle.std.specs.List.{filter};
ghost use Rattle.std.specs.List.Sorted.{IsStrictlyIncreasing};
ghost use Rattle.dd_blocks.specs.Numbered.{IsNumberIn, task_row};
ghost use Rattle.dd_blocks.specs.WellFormed.{IsWellFormed};
ghost use Rattle.dd_holding.specs.Facts.{IsTelling};
ghost use Rattle.dd_holding.specs.Holdings.{Holds, KeepsSlots, state_now};
ghost use Rattle.dd_holding.specs.Users.{most_wanted};
ghost use Rattle.dd_holding.specs.Works.{IsHandedOut, StoresAll};
ghost use Rattle.dd_machine.specs.declared.event.Event.TheVariants.{Claim, Finish};
ghost use Rattle.dd_machine.specs.Legal.{Legal, MayClaim};
ghost use Rattle.dd_machine.specs.Tests.{Has, is_here};
ghost use Rattle.dd_machine.specs.Words.{place, touches};
ghost use Rattle.dd_pool.specs.Places.{IsPlace};
ghost use Rattle.dd_pool.specs.Pools.{copy_at};
ghost use Rattle.dd_stamps.specs.Copies.{MayStore};
ghost use Rattle.dd_stamps.specs.Works.{IsSameWork};
ghost use Rattle.dd_stamps.specs.declared.stamped.Stamped.{Stamped};
ghost use Rattle.dd_stamps.specs.declared.work.Stage.TheVariants.{Collecting, Ran};

use crate::holding::Holding;
use crate::users::most_wanted;
use dd_machine::Entry;
use dd_pool::Pool;
use dd_stamps::Work;
use dd_store::Store;
use dd_tables::rows::{place, task_row};
use std::alloc::AllocError;

impl<'p, D: Store> Holding<'p, D> {
    /// Makes a Claim, and a work with all that the task finds. It takes the memory for what the task writes.
    ///
    /// # Errors
    /// Want of memory. All is as it was.
    pub fn claim(&mut self, entry: Entry, task: u32, worker: u32) -> Result<Work<'p>, AllocError>
        requires well { IsWellFormed self.old.ledger.plan.now }
        requires legal { Legal self.old.ledger.plan.now (state_now self.old) entry }
        requires event { entry.event ≡ Claim task worker }
        ensures work { IfOk result (λ w. IsHandedOut self.old.ledger w task worker) }
        ensures told { IsTelling D.Slot.tells self.old.ledger → IfOk result (λ w. w.told.mark ≡ true) }
        ensures ok { OnOk result (Holds self.old self.new (entry ∷ [])) }
        ensures err { OnErr result (Holds self.old self.new []) }
        ensures slots { KeepsSlots self.old self.new }
    {
        let work = self.collected(task, worker)?;
        self.reserve_outputs(task)?;
        self.ledger.enter(entry)?;
        Ok(work)
    }

    // The work of a task, with all that it finds.
    fn collected(&self, task: u32, worker: u32) -> Result<Work<'p>, AllocError>
        requires well { IsWellFormed self.now.ledger.plan.now }
        requires may { MayClaim self.now.ledger.plan.now (state_now self.now) task worker }
        ensures work { IfOk result (λ w. IsHandedOut self.now.ledger w task worker) }
        ensures told { IsTelling D.Slot.tells self.now.ledger → IfOk result (λ w. w.told.mark ≡ true) }
    {
        let number = self.ledger.journal().len() as u64 + 1;
        let picked = self.ledger.picked();
        let mut work = Work::new(self.alloc, self.ledger.plan(), task, worker, number, picked)?;
        self.collect_all(&mut work);
        Ok(work)
    }

    // Collects all that is left of a task.
    fn collect_all(&self, work: &mut Work<'p>)
        requires well { IsWellFormed self.now.ledger.plan.now }
        requires may { MayClaim self.now.ledger.plan.now (state_now self.now) work.old.task work.old.worker }
        requires plan { work.old.plan ≡ self.now.ledger.plan }
        requires stage { work.old.stage ≡ Collecting }
        requires blocks { All (λ b. touches self.now.ledger.plan.now work.old.task b ≡ true) work.old.left.items }
        ensures same { IsSameWork work.old work.new }
        ensures stage { work.new.stage ≡ Collecting }
        ensures collected { work.new.left.items ≡ [] }
        ensures told { IsTelling D.Slot.tells self.now.ledger → work.old.told.mark ≡ true → work.new.told.mark ≡ true }
    {
        while let Some(first) = work.left().first() {
            let block = *first;
            self.collect(work, block);
        }
    }

    // Collects a block that is left.
    fn collect(&self, work: &mut Work<'p>, block: u32)
        requires well { IsWellFormed self.now.ledger.plan.now }
        requires may { MayClaim self.now.ledger.plan.now (state_now self.now) work.old.task work.old.worker }
        requires plan { work.old.plan ≡ self.now.ledger.plan }
        requires stage { work.old.stage ≡ Collecting }
        requires left { Contains work.old.left.items block }
        requires touched { touches self.now.ledger.plan.now work.old.task block ≡ true }
        ensures same { IsSameWork work.old work.new }
        ensures stage { work.new.stage ≡ Collecting }
        ensures left { work.new.left.items ≡ filter (λ b. not (b == block)) work.old.left.items }
        ensures told { IsTelling D.Slot.tells self.now.ledger → work.old.told.mark ≡ true → work.new.told.mark ≡ true }
    {
        let space = place(self.ledger.plan(), work.task());
        match self.pool.copy_at(space, block) {
            Some(copy) => work.collect(copy),
            None => unreachable!(),
        }
    }

    // Makes the spare of each copy that a task touches enough for all that may run.
    fn reserve_outputs(&mut self, task: u32) -> Result<(), AllocError>
        requires well { IsWellFormed self.old.ledger.plan.now }
        requires task { IsNumberIn self.old.ledger.plan.now.tasks task }
        requires here { (b : ℕ) → touches self.old.ledger.plan.now task b ≡ true → Has (state_now self.old) (place self.old.ledger.plan.now task) b is_here }
        ensures kept { Holds self.old self.new [] }
        ensures ledger { self.new.ledger ≡ self.old.ledger }
        ensures slots { KeepsSlots self.old self.new }
        ensures ok { OnOk result ((b : ℕ) → touches self.old.ledger.plan.now task b ≡ true
            → IsSomeAnd (copy_at self.new.pool (place self.old.ledger.plan.now task) b) (λ c. most_wanted self.old.ledger.plan.now b ≤ c.versions.spare)) }
    {
        let plan = self.ledger.plan();
        let space = place(plan, task);
        self.reserve_all(space, task_row(plan, task).blocks.as_slice())
    }

    // Makes the spare of copies of a space enough for all that may run.
    fn reserve_all(&mut self, space: u32, blocks: &[u32]) -> Result<(), AllocError>
        requires well { IsWellFormed self.old.ledger.plan.now }
        requires places { All (λ b. IsPlace self.old.ledger.plan.now space b) blocks.now }
        requires here { All (λ b. Has (state_now self.old) space b is_here) blocks.now }
        ensures kept { Holds self.old self.new [] }
        ensures ledger { self.new.ledger ≡ self.old.ledger }
        ensures slots { KeepsSlots self.old self.new }
        ensures ok { OnOk result (All (λ b. IsSomeAnd (copy_at self.new.pool space b) (λ c. most_wanted self.old.ledger.plan.now b ≤ c.versions.spare)) blocks.now) }
    {
        for block in blocks {
            self.reserve_most(space, *block)?;
        }
        Ok(())
    }

    // The same of one. No copy has less spare then.
    fn reserve_most(&mut self, space: u32, block: u32) -> Result<(), AllocError>
        requires well { IsWellFormed self.old.ledger.plan.now }
        requires place { IsPlace self.old.ledger.plan.now space block }
        requires here { Has (state_now self.old) space block is_here }
        ensures kept { Holds self.old self.new [] }
        ensures ledger { self.new.ledger ≡ self.old.ledger }
        ensures slots { KeepsSlots self.old self.new }
        ensures more { (s b : ℕ) (c : Stamped) → IsPlace self.old.ledger.plan.now s b → copy_at self.old.pool s b ≡ Some c
            → IsSomeAnd (copy_at self.new.pool s b) (λ d. c.versions.spare ≤ d.versions.spare) }
        ensures ok { OnOk result (IsSomeAnd (copy_at self.new.pool space block) (λ c. most_wanted self.old.ledger.plan.now block ≤ c.versions.spare)) }
    {
        let most = most_wanted(self.ledger.plan(), block);
        self.reserve_runs(space, block, most)
    }

    /// Makes a Finish, and stores what the work made. It takes no memory.
    pub fn finish(&mut self, entry: Entry, work: &Work<'p>)
        requires well { IsWellFormed self.old.ledger.plan.now }
        requires legal { Legal self.old.ledger.plan.now (state_now self.old) entry }
        requires event { entry.event ≡ Finish work.now.task }
        requires plan { work.now.plan ≡ self.old.ledger.plan }
        requires ran { work.now.stage ≡ Ran }
        requires told { IsTelling D.Slot.tells self.old.ledger → work.now.told.mark ≡ true }
        ensures grows { Holds self.old self.new (entry ∷ []) }
        ensures slots { KeepsSlots self.old self.new }
    {
        let plan = self.ledger.plan();
        let task = work.task();
        let space = place(plan, task);
        let blocks = task_row(plan, task).blocks.as_slice();
        self.ledger.finish(entry);
        store_all(&mut self.pool, space, blocks, work);
    }
}

// Stores what a work made into the copies of some blocks of a space.
fn store_all<'p, D: Store>(pool: &mut Pool<'p, D>, space: u32, blocks: &[u32], work: &Work<'p>)
    requires well { IsWellFormed pool.old.plan.now }
    requires space { IsNumberIn pool.old.plan.now.spaces space }
    requires blocks { All (λ b. IsNumberIn pool.old.plan.now.blocks b) blocks.now }
    requires rising { IsStrictlyIncreasing blocks.now }
    requires there { All (λ b. IsSomeAnd (copy_at pool.old space b) (λ c. MayStore c work.now)) blocks.now }
    ensures { StoresAll pool.old pool.new work.now space blocks.now }
{
    for block in blocks {
        pool.store_outputs(space, *block, work);
    }
}
