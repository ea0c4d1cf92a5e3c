//! Whole runs over a source and sinks in memory.
use dd_io::{MemSink, MemSource};
use dd_session::{CommandWords, Status, run_words};
use dd_store::NeverFails;
use std::alloc::{AllocError, Global};

/// The two by two array of ones, added to itself.
pub const TWICE: &[u8] =
    b"array A 2 2 2 2 const 1\nregion\ntask add InOut(A) In(A)\nend\nprint A\n";

/// How a source gives its bytes and a sink takes its own: at most so many a call, the calls that fail, and the room.
#[derive(Clone, Copy)]
pub struct Ends {
    pub given: usize,
    pub reads_failing: &'static [u32],
    pub taken: usize,
    pub writes_failing: &'static [u32],
    pub room: usize,
}

pub const PLAIN: Ends = Ends {
    given: 4096,
    reads_failing: &[],
    taken: 4096,
    writes_failing: &[],
    room: 4096,
};

/// What a run came to: its status, and what the two sinks hold.
#[derive(Drop)]
pub struct Seen {
    pub status: Status,
    pub out: Vec<u8>,
    pub err: Vec<u8>,
}

/// Runs the command of the words on a text.
pub fn run_over(
    alloc: Global,
    words: &[&str],
    text: &[u8],
    ends: &Ends,
) -> Result<Seen, AllocError> {
    let mut command = CommandWords::new(alloc);
    for word in words {
        command.push(word)?;
    }
    let bytes = Vec::from_slice(alloc, text)?;
    let reads = Vec::from_slice(alloc, ends.reads_failing)?;
    let writes = Vec::from_slice(alloc, ends.writes_failing)?;
    let mut src = MemSource::new(bytes, ends.given.max(1), reads);
    let mut out = MemSink::new(alloc, ends.room, ends.taken.max(1), writes)?;
    let mut err = MemSink::new(alloc, 256, 7, Vec::new(alloc))?;
    let outcome = run_words(
        alloc,
        &command,
        &mut src,
        &mut out,
        &mut err,
        NeverFails::new(alloc),
    );
    Ok(Seen {
        status: outcome.status,
        out: Vec::from_slice(alloc, out.bytes())?,
        err: Vec::from_slice(alloc, err.bytes())?,
    })
}
