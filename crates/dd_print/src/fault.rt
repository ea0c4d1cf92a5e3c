ghost use Rattle.std.specs.Prelude.{◌≡◌};
ghost use Rattle.dd_print.specs.Causes.{of_run, of_text};
ghost use Rattle.dd_print.specs.declared.fault.PrintFault.TheVariants.{WriteFault, Memory};

use dd_io::IoFault;
use dd_table::RunFault;
use dd_text::PrintFault as TextFault;
use std::alloc::{AllocError, AllocFailed};
use thiserror::Error;

/// Why something was not printed, or only a prefix of it.
#[derive(Clone, Copy, Debug, PartialEq, Eq, Error)]
pub enum PrintFault {
    /// The output. Its sink has counted it.
    #[error("the output failed")]
    WriteFault,
    /// The disk. The store has counted it.
    #[error("the disk failed")]
    DiskFault,
    /// Want of memory.
    #[error("out of memory")]
    Memory,
}

impl From<IoFault> for PrintFault {
    ghost from_gives = { λ _ e. e ≡ WriteFault };

    fn from(_e: IoFault) -> PrintFault {
        PrintFault::WriteFault
    }
}

impl From<AllocError> for PrintFault {
    ghost from_gives = { λ _ e. e ≡ Memory };

    fn from(_e: AllocError) -> PrintFault {
        PrintFault::Memory
    }
}

impl<T: Drop> From<AllocFailed<T>> for PrintFault {
    ghost from_gives = { λ _ e. e ≡ Memory };

    fn from(_e: AllocFailed<T>) -> PrintFault {
        PrintFault::Memory
    }
}

impl From<RunFault> for PrintFault {
    ghost from_gives = { λ f e. e ≡ of_run f };

    fn from(fault: RunFault) -> PrintFault {
        match fault {
            RunFault::DiskFault => PrintFault::DiskFault,
            RunFault::Memory => PrintFault::Memory,
        }
    }
}

impl From<TextFault> for PrintFault {
    ghost from_gives = { λ f e. e ≡ of_text f };

    fn from(fault: TextFault) -> PrintFault {
        match fault {
            TextFault::WriteFault => PrintFault::WriteFault,
            TextFault::Memory => PrintFault::Memory,
        }
    }
}
