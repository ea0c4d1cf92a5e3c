ghost use Rattle.std.specs.Prelude.{◌≡◌, ◌+◌, ◌-◌, ◌^◌, ◌<◌, ◌≤◌, ◌↔◌, [], IfOk, OnOk, OnErr, IsErrOf, Contains};
ghost use Rattle.dd_causes.specs.Counts.{Rose, one_more};
ghost use Rattle.dd_store.specs.Slots.{faults_with};

use crate::fault::StoreFault;
use crate::mem_slot::{MemSlot, SlotCalls};
use crate::store::Store;
use dd_causes::next_fails;
use std::alloc::{AllocError, Global};
use std::marker::Model;
use std::sync::Arc;

/// A store in memory, which fails at the calls that it is told.
#[derive(Drop)]
pub struct MemStore {
    alloc: Global,
    makes: Vec<u32>,
    // What the slots share of their calls: here until the first slot is made, and from then on in `shared`.
    unshared: SlotCalls,
    shared: Option<Arc<SlotCalls, Global>>,
    calls: u64,
    made: u64,
    faults: u64,
}

impl Model for MemStore {
    ghost use Rattle.dd_store.specs.Views.{Failing};

    ghost Value = { Failing };

    ghost view = { λ s. record { makes = s.makes.items; calls = s.calls; made = s.made; faults = s.faults } };
}

impl MemStore {
    /// A store that has made no slot. Its calls of `make` with the numbers in `makes` fail, and so do the calls of
    /// `append` and `read` with the numbers in `appends` and `reads`. Each kind is numbered from 1, over all slots.
    pub fn new(alloc: Global, makes: Vec<u32>, appends: Vec<u32>, reads: Vec<u32>) -> MemStore
        ensures { result ≡ record { makes = makes.items; calls = 0; made = 0; faults = 0 } }
    {
        MemStore {
            alloc,
            makes,
            unshared: SlotCalls::new(appends, reads),
            shared: None,
            calls: 0,
            made: 0,
            faults: 0,
        }
    }

    /// How many slots it has made.
    pub fn made(&self) -> u64
        ensures { result ≡ self.now.made }
    {
        self.made
    }

    /// How many faults it has counted, with those of the slots that it ended.
    pub fn faults(&self) -> u64
        ensures { result ≡ self.now.faults }
    {
        self.faults
    }

    // What the next slot shares with the others. Where memory is wanting, nothing is lost: the next call tries again.
    fn slot_calls(&mut self) -> Result<Arc<SlotCalls, Global>, AllocError>
        ensures same { self.new ≡ self.old }
    {
        if let Some(calls) = &self.shared {
            return Arc::try_clone(calls);
        }
        match Arc::new(self.alloc, self.unshared.take(self.alloc)) {
            Ok(calls) => {
                let first = Arc::try_clone(&calls);
                self.shared = Some(calls);
                first
            }
            Err(refused) => {
                self.unshared = refused.value;
                Err(AllocError)
            }
        }
    }
}

impl Store for MemStore {
    type Slot = MemSlot;

    ghost made = { λ s. s.made };

    ghost faults = { λ s. s.faults };

    fn make(&mut self) -> Result<MemSlot, StoreFault>
        requires { self.old.made < 2 ^ 64 - 1 }
        ensures slot { IfOk result (λ slot. (slot.bytes ≡ []) × (slot.faults ≡ 0)) }
        ensures made { OnOk result (self.new.made ≡ self.old.made + 1) }
        ensures none { OnErr result (self.new.made ≡ self.old.made) }
        ensures cause { IsErrOf result StoreFault.Disk → Rose self.old.faults self.new.faults }
        ensures kept { (¬ IsErrOf result StoreFault.Disk) → self.new.faults ≡ self.old.faults }
        ensures later { self.old.faults ≤ self.new.faults }

        // Which calls fail.
        ensures fails { IsErrOf result StoreFault.Disk ↔ Contains self.old.makes (self.old.calls + 1) }
        ensures counted { self.new.calls ≡ one_more self.old.calls }
        ensures told { self.new.makes ≡ self.old.makes }
        ensures fault { IsErrOf result StoreFault.Disk → self.new.faults ≡ one_more self.old.faults }
    {
        let fails = next_fails(&self.makes, self.calls);
        self.calls = self.calls.saturating_add(1);
        if fails {
            self.faults = self.faults.saturating_add(1);
            return Err(StoreFault::Disk);
        }
        let calls = self.slot_calls()?;
        self.made += 1;
        Ok(MemSlot::new(self.alloc, calls))
    }

    fn end(&mut self, slot: MemSlot)
        ensures made { self.new.made ≡ self.old.made }
        ensures faults { self.new.faults ≡ faults_with self.old.faults slot.faults }
        ensures later { self.old.faults ≤ self.new.faults }
        ensures told { self.new.makes ≡ self.old.makes }
        ensures counted { self.new.calls ≡ self.old.calls }
    {
        self.faults = self.faults.saturating_add(slot.faults());
    }
}
