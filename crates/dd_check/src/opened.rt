//! A region that is open.
ghost use Rattle.std.specs.Prelude.{◌≡◌, []};
ghost use Rattle.dd_check.specs.Drafts.{Sums};

use dd_blocks::TaskRow;
use std::alloc::Global;

/// A region that is open.
#[derive(Debug, Drop)]
pub(crate) struct Opened {
    /// The line at which it begins.
    pub(crate) line: u32,
    /// Its tasks so far.
    pub(crate) tasks: Vec<TaskRow>,
    /// The processor of each of them.
    pub(crate) procs: Vec<u32>,
    /// How many elements their accesses have.
    pub(crate) elements: u64,
    /// How many blocks they touch, each task for itself.
    pub(crate) touches: u64,
}

impl Opened {
    /// A region that begins at a line.
    pub(crate) fn new(alloc: Global, line: u32) -> Opened
        ensures line { result.line ≡ line }
        ensures tasks { result.tasks.items ≡ [] }
        ensures sums { Sums result }
    {
        Opened {
            line,
            tasks: Vec::new(alloc),
            procs: Vec::new(alloc),
            elements: 0,
            touches: 0,
        }
    }
}
