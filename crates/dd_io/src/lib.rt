//! Where bytes come from and where they go: sources and sinks that count their faults.
//!
//! A call that answers a fault says that the count of the object rose meanwhile, and any other call that it stayed.
//! Where the object tells its bytes, each call says exactly which were taken or appended. So a program that reads or
//! writes through these traits can say why it failed and what it left behind. For a file that is read in any order,
//! these traits are the wrong ones.
//!
//! ```text
//! let text = read_all(rt.alloc(), &mut StdSource::new(rt.stdin()), 1 << 20)?;
//! write_all(&mut StdSink::new(rt.stdout()), &text)?;
//! ```
//!
//! `read_all` asks for 8 KiB at a time, through a piece on the stack, and doubles its memory as it grows; `write_all`
//! takes no memory. `MemSource` and `MemSink` are for tests: they give and take few bytes at a time, and fail at the
//! calls that they are told. `StdSource` and `StdSink` are the edge to the system, of whose bytes nothing is known.
//!
//! What a call takes of a source stands in `specs/Taken.antt`, what callers see of the four types in `specs/Memory.antt`
//! and `specs/Edge.antt`.
#![tactic(auto)]

mod fault;
mod mem_sink;
mod mem_source;
mod pieces;
mod reading;
mod sink;
mod source;
mod std_sink;
mod std_source;
mod writing;

pub use fault::IoFault;
pub use mem_sink::MemSink;
pub use mem_source::MemSource;
pub use pieces::write_pieces;
pub use reading::{ReadEnd, read_all};
pub use sink::Sink;
pub use source::Source;
pub use std_sink::StdSink;
pub use std_source::StdSource;
pub use writing::write_all;
