ghost use Rattle.std.specs.Prelude.{◌≡◌, true};

use crate::bytes::copy_piece;
use crate::fault::StoreFault;
use crate::store::{Slot, Store};
use std::alloc::Global;
use std::marker::Model;

/// A slot in memory that never fails.
#[derive(Debug, Drop)]
pub struct NeverFailsSlot {
    bytes: Vec<u8>,
}

impl Model for NeverFailsSlot {
    ghost use Rattle.std.specs.Prelude.{ℕ, List};

    ghost Value = { List ℕ };

    ghost view = { λ s. s.bytes.items };
}

impl Slot for NeverFailsSlot {
    ghost tells = { true };

    ghost content = { λ s. s };

    ghost faults = { λ _. 0 };

    fn append(&mut self, bytes: &[u8]) -> Result<(), StoreFault> {
        self.bytes.extend_from_slice(bytes)?;
        Ok(())
    }

    fn read(&mut self, place: u64, buf: &mut [u8]) -> Result<(), StoreFault> {
        copy_piece(&self.bytes, place, buf);
        Ok(())
    }
}

/// A store in memory that never fails: its faults are always 0, and so it never answers `Disk`.
#[derive(Debug, Drop)]
pub struct NeverFails {
    alloc: Global,
    made: u64,
}

impl Model for NeverFails {
    ghost use Rattle.std.specs.Prelude.{ℕ};

    ghost Value = { ℕ };

    ghost view = { λ s. s.made };
}

impl NeverFails {
    /// A store that has made no slot.
    pub fn new(alloc: Global) -> NeverFails
        ensures { result ≡ 0 }
    {
        NeverFails { alloc, made: 0 }
    }

    /// How many slots it has made.
    pub fn made(&self) -> u64
        ensures { result ≡ self.now }
    {
        self.made
    }
}

impl Store for NeverFails {
    type Slot = NeverFailsSlot;

    ghost made = { λ s. s };

    ghost faults = { λ _. 0 };

    fn make(&mut self) -> Result<NeverFailsSlot, StoreFault> {
        self.made += 1;
        let bytes = Vec::new(self.alloc);
        Ok(NeverFailsSlot { bytes })
    }

    fn end(&mut self, _slot: NeverFailsSlot) {}
}
