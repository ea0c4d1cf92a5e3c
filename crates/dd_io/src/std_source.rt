ghost use Rattle.std.specs.Prelude.{◌≡◌, ◌≤◌, length, IfOk, OnOk, is_ok, if◌then◌else◌};
ghost use Rattle.std.specs.Io.KnownBytes.{ReadConsumes};
ghost use Rattle.dd_causes.specs.Counts.{FailsOnlyIfRose, one_more};

use crate::fault::IoFault;
use crate::source::Source;
use std::io::Read;
use std::marker::Model;

/// A reader of std as a source: standard input, a file, a pipe. It tells of its bytes what the reader tells, which is
/// nothing at those three.
///
/// It stands at the edge to the system: what such a reader gives is trusted. Each of its errors is a fault.
#[derive(Drop)]
pub struct StdSource<R> {
    inner: R,
    faults: u64,
}

impl<R> Model for StdSource<R> {
    ghost use Rattle.dd_io.specs.Edge.{Edge};

    ghost Value = { Edge R };

    ghost view = { λ s. record { inner = s.inner; faults = s.faults } };
}

impl<R: Read + Drop> StdSource<R> {
    /// A source over this reader, with no fault yet.
    pub fn new(inner: R) -> StdSource<R>
        ensures { result ≡ record { inner = inner; faults = 0 } }
    {
        StdSource { inner, faults: 0 }
    }
}

impl<R: Read + Drop> Source for StdSource<R> {
    ghost left = { λ s. R.remaining s.inner };

    ghost faults = { λ s. s.faults };

    fn read(&mut self, buf: &mut [u8]) -> Result<usize, IoFault>
        ensures within { IfOk result (λ n. n ≤ length buf.new) }
        ensures taken { ReadConsumes (R.remaining self.old.inner) (R.remaining self.new.inner) result buf.new }
        ensures cause { FailsOnlyIfRose result self.old.faults self.new.faults }
        ensures kept { OnOk result (self.new.faults ≡ self.old.faults) }
        ensures later { self.old.faults ≤ self.new.faults }
        ensures counted { self.new.faults ≡ (if is_ok result then self.old.faults else one_more self.old.faults) }
    {
        match self.inner.read(buf) {
            Ok(count) => Ok(count),
            Err(_) => {
                self.faults = self.faults.saturating_add(1);
                Err(IoFault)
            }
        }
    }
}
