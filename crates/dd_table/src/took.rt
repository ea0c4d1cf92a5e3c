ghost use Rattle.std.specs.Prelude.{◌≡◌};
ghost use Rattle.dd_table.specs.Causes.{took_of};

use crate::fault::RunFault;
use dd_stamps::Work;

/// What a worker gets of a table.
#[derive(Drop)]
pub enum Took<'p> {
    /// A task that it has claimed.
    Work(Work<'p>),
    /// Nothing can be claimed before a task ends: so many run, and so many jobs are out.
    Idle { running: u32, out: u32 },
    /// Every task of the region is done.
    AllDone,
    /// A cause was kept before.
    Stopped,
    /// The disk failed, and that is kept.
    DiskFault,
    /// Memory was wanting, and that is kept.
    Memory,
}

impl<'p> From<RunFault> for Took<'p> {
    ghost from_gives = { λ f t. t ≡ took_of f };

    fn from(fault: RunFault) -> Took<'p> {
        match fault {
            RunFault::DiskFault => Took::DiskFault,
            RunFault::Memory => Took::Memory,
        }
    }
}
