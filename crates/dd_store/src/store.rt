ghost use Rattle.std.specs.Prelude.{◌≡◌, ℕ, ◌+◌, ◌-◌, ◌^◌, ◌<◌, ◌≤◌, Bool, true, List, [], ◌++◌, length, IfOk, OnOk, OnErr, IsErrOf};
ghost use Rattle.dd_causes.specs.Counts.{Rose};
ghost use Rattle.dd_store.specs.Slots.{faults_with, piece};

use crate::fault::StoreFault;

/// A run of bytes that grows at its end.
pub trait Slot {
    // Whether slots of this type tell their content.
    ghost tells: { Bool };

    // The bytes in it. Where the type doesn't tell, they say nothing.
    ghost content: { Self → List ℕ };

    // How many faults it has counted: a number of 64 bits that never falls, and 0 at first.
    ghost faults: { Self → ℕ };

    /// Adds bytes at the end.
    ///
    /// # Errors
    /// `Disk`, a fault that the slot has counted, and want of memory. The content is anything then.
    fn append(&mut self, bytes: &[u8]) -> Result<(), StoreFault>
        ensures added { tells ≡ true → OnOk result (content self.new ≡ content self.old ++ bytes.now) }
        ensures cause { IsErrOf result StoreFault.Disk → Rose (faults self.old) (faults self.new) }
        ensures kept { (¬ IsErrOf result StoreFault.Disk) → faults self.new ≡ faults self.old }
        ensures later { faults self.old ≤ faults self.new };

    /// Fills the buffer with the bytes from `place` on, counted from 0. The content stays in any case.
    ///
    /// # Errors
    /// `Disk`, a fault that the slot has counted, and want of memory.
    fn read(&mut self, place: u64, buf: &mut [u8]) -> Result<(), StoreFault>
        requires { tells ≡ true → place + length buf.old ≤ length (content self.old) }
        ensures filled { tells ≡ true → OnOk result (buf.new ≡ piece place (length buf.old) (content self.old)) }
        ensures content { content self.new ≡ content self.old }
        ensures cause { IsErrOf result StoreFault.Disk → Rose (faults self.old) (faults self.new) }
        ensures kept { (¬ IsErrOf result StoreFault.Disk) → faults self.new ≡ faults self.old }
        ensures later { faults self.old ≤ faults self.new };
}

/// What makes slots and ends them.
pub trait Store: Drop {
    type Slot: Slot + Send + Drop;

    // How many slots it has made.
    ghost made: { Self → ℕ };

    // How many faults it has counted, with those of the slots that it ended: a number of 64 bits that never falls.
    ghost faults: { Self → ℕ };

    /// An empty slot.
    ///
    /// # Errors
    /// `Disk`, a fault that the store has counted, and want of memory. No slot was made then.
    fn make(&mut self) -> Result<Self::Slot, StoreFault>
        requires { made self.old < 2 ^ 64 - 1 }
        ensures slot { IfOk result (λ s. (Self.Slot.content s ≡ []) × (Self.Slot.faults s ≡ 0)) }
        ensures made { OnOk result (made self.new ≡ made self.old + 1) }
        ensures none { OnErr result (made self.new ≡ made self.old) }
        ensures cause { IsErrOf result StoreFault.Disk → Rose (faults self.old) (faults self.new) }
        ensures kept { (¬ IsErrOf result StoreFault.Disk) → faults self.new ≡ faults self.old }
        ensures later { faults self.old ≤ faults self.new };

    /// Takes a slot for good. From then on the store counts its faults.
    fn end(&mut self, slot: Self::Slot)
        ensures made { made self.new ≡ made self.old }
        ensures faults { faults self.new ≡ faults_with (faults self.old) (Self.Slot.faults slot) }
        ensures later { faults self.old ≤ faults self.new };
}
