ghost use Rattle.std.specs.Prelude.{◌≡◌, Some};
ghost use Rattle.dd_table.specs.Causes.{fault_of};

use dd_store::StoreFault;
use thiserror::Error;

/// Why a run stopped.
#[derive(Clone, Copy, Debug, PartialEq, Eq, Error)]
pub enum RunFault {
    /// The disk. The store has counted it.
    #[error("the disk failed")]
    DiskFault,
    /// Want of memory.
    #[error("out of memory")]
    Memory,
}

impl From<StoreFault> for RunFault {
    ghost from_gives = { λ f e. e ≡ fault_of f };

    fn from(fault: StoreFault) -> RunFault {
        match fault {
            StoreFault::Disk => RunFault::DiskFault,
            StoreFault::Memory => RunFault::Memory,
        }
    }
}

/// Keeps a fault as the cause.
pub(crate) fn keep(cause: &mut Option<RunFault>, fault: StoreFault) -> RunFault
    ensures fault { result ≡ fault_of fault }
    ensures cause { cause.new ≡ Some result }
{
    let fault = RunFault::from(fault);
    *cause = Some(fault);
    fault
}
