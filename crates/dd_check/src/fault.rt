ghost use Rattle.std.specs.Prelude.{◌≡◌};
ghost use Rattle.dd_check.specs.declared.fault.AcceptFault.TheVariants.{Memory, Script};

use crate::kind::Kind;
use std::alloc::{AllocError, AllocFailed};

/// The first fault of a script.
#[derive(Clone, Copy, Debug, PartialEq, Eq)]
pub struct Fault {
    /// The line that has it, from 1, or 0 for a text that is too long.
    pub line: u32,
    pub kind: Kind,
    /// A number that belongs to the kind, or 0: the limit that is passed, what is given, what is needed.
    pub a: u64,
    /// The other number, or 0: what is wanted, what there is.
    pub b: u64,
}

impl Fault {
    /// A fault without numbers.
    pub(crate) fn plain(line: u32, kind: Kind) -> Fault
        ensures { result ≡ record { line = line; kind = kind; a = 0; b = 0 } }
    {
        Fault {
            line,
            kind,
            a: 0,
            b: 0,
        }
    }
}

/// Why there is no Plan.
#[derive(Clone, Copy, Debug, PartialEq, Eq)]
pub enum AcceptFault {
    /// The script has this fault.
    Script(Fault),
    /// Want of memory.
    Memory,
}

impl From<Fault> for AcceptFault {
    ghost from_gives = { λ fault e. e ≡ Script fault };

    fn from(fault: Fault) -> AcceptFault {
        AcceptFault::Script(fault)
    }
}

impl From<AllocError> for AcceptFault {
    ghost from_gives = { λ _ e. e ≡ Memory };

    fn from(_e: AllocError) -> AcceptFault {
        AcceptFault::Memory
    }
}

impl<T: Drop> From<AllocFailed<T>> for AcceptFault {
    ghost from_gives = { λ _ e. e ≡ Memory };

    fn from(_e: AllocFailed<T>) -> AcceptFault {
        AcceptFault::Memory
    }
}
