//! All kernels behind one call on buffers, and behind one for each number of slices.
//!
//! ```text
//! let mut args = Args { shapes, bufs };       // X is 3 by 1: 1 2 3
//! apply(Kernel::Scan, 0, &mut args);          // X becomes 1 3 6
//! ```
//!
//! A kernel works on one list for each of its accesses, and makes of it, where it stands, the list that the kernel table,
//! `dd_kernels/specs/Table.antt`, says. [`apply`] takes the lists as buffers, which the caller has gathered and will store
//! back; [`apply_to_one`], [`apply_to_two`] and [`apply_to_three`] take them as slices, which may be parts of larger lists.
//! No call takes memory, and the cost is that of the kernel.
//!
//! Inside, the kernels on packed triangles go to `dd_packed`, the others to `dd_kernels`.
#![tactic(auto)]

mod run;
mod slices;

pub use run::apply;
pub use slices::{apply_to_one, apply_to_three, apply_to_two};
