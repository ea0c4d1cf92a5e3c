ghost use Rattle.std.specs.Prelude.{◌≡◌, ℕ, ◌≤◌, List, length, Option, IfOk, OnOk};
ghost use Rattle.std.specs.Io.KnownBytes.{ReadConsumes};
ghost use Rattle.dd_causes.specs.Counts.{FailsOnlyIfRose};

use crate::fault::IoFault;

/// Where bytes come from.
pub trait Source {
    // The bytes that are left, where the source tells them.
    ghost left: { Self → Option (List ℕ) };

    // How many faults it has counted: a number of 64 bits that never falls.
    ghost faults: { Self → ℕ };

    /// Fills a front of the buffer with the next bytes, and answers how many they are. 0 for a buffer
    /// that isn't empty is the end of the input.
    ///
    /// # Errors
    /// A fault, which the source has counted. Nothing was taken then. Without a fault it counts nothing.
    fn read(&mut self, buf: &mut [u8]) -> Result<usize, IoFault>
        ensures within { IfOk result (λ n. n ≤ length buf.new) }
        ensures taken { ReadConsumes (left self.old) (left self.new) result buf.new }
        ensures cause { FailsOnlyIfRose result (faults self.old) (faults self.new) }
        ensures kept { OnOk result (faults self.new ≡ faults self.old) }
        ensures later { faults self.old ≤ faults self.new };
}
