//! Tests of the kernels: of `dd_kernels`, `dd_packed` and `dd_apply`.
//!
//! This crate has tests alone, and no other crate stands on it. A row has lists and what they become, worked by hand or
//! by another program. It is tried on buffers, by the crate that has the kernel and by `apply`, and on slices, by the call
//! for their number. `lists` has what the tests share.
#![tactic(auto)]

#[cfg(test)]
mod each_kernel;
#[cfg(test)]
mod lists;
#[cfg(test)]
mod names;
#[cfg(test)]
mod one_list;
#[cfg(test)]
mod packed_triangles;
#[cfg(test)]
mod stencil;
#[cfg(test)]
mod three_lists;
#[cfg(test)]
mod two_lists;
