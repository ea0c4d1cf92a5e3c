ghost use Rattle.std.specs.Prelude.{◌≡◌};
ghost use Rattle.dd_text.specs.declared.fault.PrintFault.TheVariants.{WriteFault, Memory};

use dd_io::IoFault;
use std::alloc::{AllocError, AllocFailed};
use thiserror::Error;

/// Why something was not printed, or only a front of it.
#[derive(Clone, Copy, Debug, PartialEq, Eq, Error)]
pub enum PrintFault {
    /// The output's sink failed.
    #[error("the output failed")]
    WriteFault,
    /// Want of memory.
    #[error("out of memory")]
    Memory,
}

impl From<IoFault> for PrintFault {
    ghost from_gives = { λ _ e. e ≡ WriteFault };

    fn from(_e: IoFault) -> PrintFault {
        PrintFault::WriteFault
    }
}

impl From<AllocError> for PrintFault {
    ghost from_gives = { λ _ e. e ≡ Memory };

    fn from(_e: AllocError) -> PrintFault {
        PrintFault::Memory
    }
}

impl<T: Drop> From<AllocFailed<T>> for PrintFault {
    ghost from_gives = { λ _ e. e ≡ Memory };

    fn from(_e: AllocFailed<T>) -> PrintFault {
        PrintFault::Memory
    }
}
