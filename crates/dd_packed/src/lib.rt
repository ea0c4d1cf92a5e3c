//! The kernels on packed triangles: a column times a lower triangle, the solution of one with ones on its
//! diagonal, for one column and for several, a triangle turned about its diagonal, and the lower triangle of a
//! matrix times itself transposed, added to another.
//!
//! ```text
//! let mut args = Args { shapes, bufs };       // X is 2 by 1: 1 1; P is 1 by 1: 2
//! packed(Kernel::TrsvUnit, &mut args);        // X becomes 1 -1
//! ```
//!
//! A packed triangle of order n is one column: its elements by column of the triangle and within it by row. What
//! each kernel makes of its lists is the equation of the kernel table, `dd_kernels/specs/Table.antt`, with the
//! pairs of row and column of a triangle in `Packed.antt` beside it.
//!
//! [`packed`] takes no memory and writes where the lists stand; [`packed_on_two`] is the same on slices, which may be
//! parts of larger lists. `trmv`, `trsv_unit` and `mirror` go over the
//! triangle once, `trsm_unit` once for each column of X, `syrk_packed` once for each column of A. The inner loops
//! run over slices of stride one, except in `mirror`, which reads with a step.
//!
//! Inside, `run` lends the two buffers as slices and goes by the kernel. `product`, `solution` and `square` cut the
//! triangle into its columns; `reflection` walks along its rows.
#![tactic(auto)]

mod product;
mod reflection;
mod run;
mod solution;
mod square;

pub use run::{packed, packed_on_two};
