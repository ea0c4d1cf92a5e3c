ghost use Rattle.std.specs.Prelude.{◌≡◌, true};

use crate::bytes::copy_piece;
use crate::fault::StoreFault;
use crate::store::Slot;
use dd_causes::next_fails;
use std::alloc::Global;
use std::marker::Model;
use std::mem::replace;
use std::sync::Arc;
use std::sync::atomic::{AtomicU64, Ordering};

/// Which calls on the slots of a store fail, by their numbers from 1 over all slots, and how many there were.
#[derive(Drop)]
pub(crate) struct SlotCalls {
    appends: Vec<u32>,
    reads: Vec<u32>,
    append_calls: AtomicU64,
    read_calls: AtomicU64,
}

impl SlotCalls {
    /// No call yet, and these will fail.
    pub(crate) fn new(appends: Vec<u32>, reads: Vec<u32>) -> SlotCalls {
        SlotCalls {
            appends,
            reads,
            append_calls: AtomicU64::new(0),
            read_calls: AtomicU64::new(0),
        }
    }

    /// Leaves calls of which none fails, and gives what was there.
    pub(crate) fn take(&mut self, alloc: Global) -> SlotCalls {
        replace(self, SlotCalls::new(Vec::new(alloc), Vec::new(alloc)))
    }

    // Counts an `append`. Whether it fails.
    fn next_append_fails(&self) -> bool {
        let calls = self.append_calls.fetch_add(1, Ordering::SeqCst);
        next_fails(&self.appends, calls)
    }

    // Counts a `read`. Whether it fails.
    fn next_read_fails(&self) -> bool {
        let calls = self.read_calls.fetch_add(1, Ordering::SeqCst);
        next_fails(&self.reads, calls)
    }
}

/// A slot in memory, which fails at the calls that its store was told.
#[derive(Drop)]
pub struct MemSlot {
    bytes: Vec<u8>,
    faults: u64,
    calls: Arc<SlotCalls, Global>,
}

impl Model for MemSlot {
    ghost use Rattle.dd_store.specs.Views.{Bytes};

    ghost Value = { Bytes };

    ghost view = { λ s. record { bytes = s.bytes.items; faults = s.faults } };
}

impl MemSlot {
    ghost use Rattle.std.specs.Prelude.{[]};

    /// An empty slot without faults.
    pub(crate) fn new(alloc: Global, calls: Arc<SlotCalls, Global>) -> MemSlot
        ensures { result ≡ record { bytes = []; faults = 0 } }
    {
        MemSlot {
            bytes: Vec::new(alloc),
            faults: 0,
            calls,
        }
    }

    /// The bytes in it.
    pub fn bytes(&self) -> &[u8]
        ensures { result.now ≡ self.now.bytes }
    {
        &self.bytes
    }

    /// How many of its calls failed.
    pub fn faults(&self) -> u64
        ensures { result ≡ self.now.faults }
    {
        self.faults
    }
}

impl Slot for MemSlot {
    ghost tells = { true };

    ghost content = { λ s. s.bytes };

    ghost faults = { λ s. s.faults };

    fn append(&mut self, bytes: &[u8]) -> Result<(), StoreFault> {
        if self.calls.next_append_fails() {
            self.faults = self.faults.saturating_add(1);
            return Err(StoreFault::Disk);
        }
        self.bytes.extend_from_slice(bytes)?;
        Ok(())
    }

    fn read(&mut self, place: u64, buf: &mut [u8]) -> Result<(), StoreFault> {
        if self.calls.next_read_fails() {
            self.faults = self.faults.saturating_add(1);
            return Err(StoreFault::Disk);
        }
        copy_piece(&self.bytes, place, buf);
        Ok(())
    }
}
