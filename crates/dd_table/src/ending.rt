//! The end of a run.
ghost use Rattle.std.specs.Prelude.{◌≡◌, ◌≢◌, ◌≤◌, ◌+◌, ℕ, [], None, Some};
ghost use Rattle.dd_blocks.specs.Numbered.{IsNumberIn};
ghost use Rattle.dd_blocks.specs.WellFormed.{IsWellFormed};
ghost use Rattle.dd_causes.specs.Counts.{Rose};
ghost use Rattle.dd_holding.specs.Holdings.{Holds};
ghost use Rattle.dd_pool.specs.Places.{IsPlace};
ghost use Rattle.dd_pool.specs.Pools.{out_at};
ghost use Rattle.dd_table.specs.declared.fault.RunFault.TheVariants.{DiskFault};
ghost use Rattle.dd_table.specs.Counts.{pick_count};
ghost use Rattle.dd_table.specs.Tables.{state_now};

use crate::table::Table;
use dd_blocks::Plan;
use dd_holding::Holding;
use dd_machine::Entry;
use dd_store::Store;

impl<'p, D: Store> Table<'p, D> {
    /// Ends all slots, and gives the entries, how many elements moved, and the store.
    pub fn end(self) -> (Vec<Entry>, u64, D)
        requires well { IsWellFormed self.holding.ledger.plan.now }
        ensures journal { result.0.items ≡ self.entry.holding.ledger.journal.items }
        ensures moved { result.1 ≡ (state_now self.entry).moved }
        ensures made { D.made result.2 ≡ D.made self.entry.opening.value + pick_count self.entry.holding.ledger.journal.items }
        ensures later { D.faults self.entry.store ≤ D.faults result.2 }
        ensures disk { self.entry.cause ≡ Some DiskFault → Rose (D.faults self.entry.opening.value) (D.faults result.2) }
    {
        let plan = self.plan();
        let moved = self.moved();
        let Table {
            mut holding,
            mut store,
            ..
        } = self;
        end_slots(plan, &mut holding, &mut store);
        (holding.into_journal(), moved, store)
    }
}

/// Ends all slots of a Plan's run.
fn end_slots<D: Store>(plan: &Plan, holding: &mut Holding<'_, D>, store: &mut D)
    requires well { IsWellFormed plan.now }
    requires plan { holding.old.ledger.plan.now ≡ plan.now }
    ensures kept { Holds holding.old holding.new [] }
    ensures none { (s b : ℕ) → IsPlace plan.now s b → out_at holding.new.pool s b ≡ None }
    ensures made { D.made store.new ≡ D.made store.old }
    ensures later { D.faults store.old ≤ D.faults store.new }
{
    for i in 0..plan.spaces.as_slice().len() as u32 {
        end_slots_of(plan, holding, store, i + 1);
    }
}

/// Ends the slots of a space.
fn end_slots_of<D: Store>(plan: &Plan, holding: &mut Holding<'_, D>, store: &mut D, space: u32)
    requires well { IsWellFormed plan.now }
    requires plan { holding.old.ledger.plan.now ≡ plan.now }
    requires space { IsNumberIn plan.now.spaces space }
    ensures kept { Holds holding.old holding.new [] }
    ensures none { (b : ℕ) → IsPlace plan.now space b → out_at holding.new.pool space b ≡ None }
    ensures others { (s b : ℕ) → IsPlace plan.now s b → s ≢ space → out_at holding.new.pool s b ≡ out_at holding.old.pool s b }
    ensures made { D.made store.new ≡ D.made store.old }
    ensures later { D.faults store.old ≤ D.faults store.new }
{
    for i in 0..plan.blocks.as_slice().len() as u32 {
        if let Some(slot) = holding.take_slot(space, i + 1) {
            store.end(slot);
        }
    }
}
