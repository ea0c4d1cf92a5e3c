//! The table of one run: the entries that a run makes, call by call, with what they do to values.
//!
//! ```text
//! let mut table = Table::new(alloc, &plan, store)?;
//! table.put_block(1)?;                        // Ask, Put, Rest
//! table.begin(1)?;
//! while let Took::Work(mut work) = table.next(worker) {
//!     work.run();                             // the kernel, on buffers of its own
//!     table.finish(work);
//! }
//! ```
//!
//! Every call appends a list of legal entries, and its contract names them. A table keeps why it stopped: after a fault of the disk
//! or want of memory its statement calls answer that again, and [`Table::next`] answers `Stopped`. The entries that end what is under
//! way, a Finish, a Rest, a Free and a Close, can't be refused, since their room was taken before.
//!
//! A copy is in memory exactly where the machine's state has it Here. A Pick makes a slot first, and a fault of a slot ends it at once,
//! so that the store itself has counted the fault by then. Picks, Calls and Lends are written and read inside the call that
//! appends them.
//!
//! Inside, dd_ledger has the journal and the core, dd_holding the copies beside it; `spilling` and `carrying` move values,
//! `statements` has the calls of the statements, `turns` those of the workers, `outs` the tests, `memory` the bytes of a space.
#![tactic(auto)]

mod carrying;
mod ending;
mod fault;
mod memory;
mod outs;
mod region;
mod run_work;
mod spilling;
mod statements;
mod table;
mod took;
mod turns;

pub use fault::RunFault;
pub use run_work::RunWork;
pub use table::Table;
pub use took::Took;
