ghost use Rattle.std.specs.Prelude.{◌≡◌, ℕ, ◌<◌, ◌≤◌, List, length, Option, IfOk, OnOk};
ghost use Rattle.std.specs.Io.KnownBytes.{WriteAppends};
ghost use Rattle.dd_causes.specs.Counts.{FailsOnlyIfRose};

use crate::fault::IoFault;

/// Where bytes go.
pub trait Sink {
    // The bytes that it took, where the sink tells them.
    ghost taken: { Self → Option (List ℕ) };

    // How many faults it has counted: a number of 64 bits that never falls.
    ghost faults: { Self → ℕ };

    /// Takes a front of the bytes, and answers how many those are: at least one of bytes that aren't none.
    ///
    /// # Errors
    /// A fault, which the sink has counted. Nothing was taken then. Without a fault it counts nothing.
    fn write(&mut self, bytes: &[u8]) -> Result<usize, IoFault>
        ensures within { IfOk result (λ n. n ≤ length bytes.now) }
        ensures progress { 0 < length bytes.now → IfOk result (λ n. 0 < n) }
        ensures grown { WriteAppends (taken self.old) (taken self.new) result bytes.now }
        ensures cause { FailsOnlyIfRose result (faults self.old) (faults self.new) }
        ensures kept { OnOk result (faults self.new ≡ faults self.old) }
        ensures later { faults self.old ≤ faults self.new };
}
