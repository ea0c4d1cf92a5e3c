ghost use Rattle.std.specs.Prelude.{◌≡◌, ◌+◌, []};
ghost use Rattle.dd_table.specs.Counts.{pick_count};

use dd_check::Fault;
use dd_machine::Entry;
use dd_store::Store;
use std::alloc::Global;

/// How a command ended.
#[derive(Clone, Copy, Debug, PartialEq, Eq)]
pub enum Status {
    /// The whole text was written.
    Done,
    /// Want of memory.
    Memory,
    /// The words are no command.
    Words,
    /// The script has this fault, and none before it.
    Script(Fault),
    /// The source of the script failed.
    ReadFault,
    /// The sink of the output failed.
    WriteFault,
    /// The store of spilled blocks failed.
    DiskFault,
}

impl Status {
    ghost use Rattle.dd_session.specs.Messages.{exit_of};

    /// The exit status of the program.
    pub fn exit_code(&self) -> u8
        ensures { result ≡ exit_of self.now }
    {
        match self {
            Status::Done => 0,
            Status::Memory => 1,
            Status::Words => 2,
            Status::Script(_) => 3,
            Status::ReadFault => 4,
            Status::WriteFault => 5,
            Status::DiskFault => 6,
        }
    }
}

/// What a command came to.
#[derive(Drop)]
pub struct Outcome<D: Store> {
    pub status: Status,
    /// The entries of the run. None unless a run began.
    pub journal: Vec<Entry>,
    /// How many elements moved.
    pub moved: u64,
    /// The store that was handed in.
    pub store: D,
}

impl<D: Store> Outcome<D> {
    /// What a command came to that began no run over the store.
    pub(crate) fn unrun(alloc: Global, status: Status, store: D) -> Outcome<D>
        ensures status { result.status ≡ status }
        ensures journal { result.journal.items ≡ [] }
        ensures moved { result.moved ≡ 0 }
        ensures store { result.store ≡ store }
        ensures made { D.made result.store ≡ D.made store + pick_count result.journal.items }
    {
        Outcome {
            status,
            journal: Vec::new(alloc),
            moved: 0,
            store,
        }
    }
}
