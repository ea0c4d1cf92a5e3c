//! Slots outside the memory: runs of bytes that are appended to and read, and the stores that make them.
//!
//! A store makes empty slots and ends them. Both count their faults, and a call answers `Disk` only where the count of
//! its object rose. A type of slot may tell its content: then `read` gives what `append` added. So whoever spills values
//! to a slot that tells has them back, and of any other slot knows at least why a call failed.
//!
//! ```text
//! let mut store = DirStore::new(&rt, rt.alloc(), "spill")?;
//! let mut slot = store.make()?;
//! append_values(rt.alloc(), &mut slot, &values)?;
//! let back = read_values(rt.alloc(), &mut slot, values.len())?;
//! store.end(slot);
//! ```
//!
//! Values go as 8 bytes each (`specs/Encoded.antt`), in pieces of at most 512: so a block of any size takes no more memory
//! on its way than one piece. `DirStore` keeps a file for each slot and is the edge to the system, of whose files nothing
//! is known. `MemStore` fails at the calls that it is told, and `NeverFails` at none; both tell all contents.
#![tactic(auto)]

mod bytes;
mod codec;
mod dir_store;
mod fault;
mod mem_slot;
mod mem_store;
mod never_fails;
mod store;
mod values;

pub use codec::{decode, encode};
pub use dir_store::{DirSlot, DirStore};
pub use fault::StoreFault;
pub use mem_slot::MemSlot;
pub use mem_store::MemStore;
pub use never_fails::{NeverFails, NeverFailsSlot};
pub use store::{Slot, Store};
pub use values::{append_values, read_values};
