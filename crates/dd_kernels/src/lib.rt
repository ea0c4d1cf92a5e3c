//! The kernels: what each is called, which accesses and shapes it takes, what it computes, and the plain
//! way to do so.
//!
//! A kernel works on one list of Int64 for each of its accesses, in column-major order, and changes those that
//! it writes in place. [`kernel_named`] reads its name, [`signature_of`] and [`shapes_fit`] say what it takes.
//! [`plain`] runs one on [`Args`], the lists of all its accesses side by side; [`plain_on_one`],
//! [`plain_on_two`] and [`plain_on_three`] run one on slices, which may be parts of larger lists. None of these
//! takes memory. The kernels on packed triangles stand in the table, and are run elsewhere; [`addk`], [`axpy`]
//! and [`combine`] are there for them.
//!
//! What a kernel computes is one equation of `specs/Table.antt`; the names stand in `specs/Names.antt`, the
//! accesses in `specs/Signatures.antt`, the shapes in `specs/Shapes.antt`. [`laws`] has what holds of them: the rising
//! order is the one sorted permutation, and the order of a packed triangle is the one that its length has.
//!
//! Inside, `run` goes by the number of accesses and lends their buffers as slices, `one_list`, `two_lists`
//! and `three_lists` go by the kernel, and the other modules have the work itself: `element_wise` place by
//! place, `ordered` where places count, `total` one number of lists, `matrix` and `stencil` column by column.
#![tactic(auto)]

mod args;
mod element_wise;
mod in_place;
mod kernel;
pub mod laws;
mod matrix;
mod name;
mod one_list;
mod ordered;
mod run;
mod shape;
mod shape_rule;
mod signature;
mod stencil;
mod three_lists;
mod total;
mod two_lists;

pub use args::Args;
pub use element_wise::{addk, axpy};
pub use in_place::combine;
pub use kernel::{Kernel, is_plain};
pub use name::kernel_named;
pub use one_list::plain_on_one;
pub use run::plain;
pub use shape::Shape;
pub use shape_rule::shapes_fit;
pub use signature::{Mode, Modes, Signature, signature_of};
pub use three_lists::plain_on_three;
pub use two_lists::plain_on_two;
