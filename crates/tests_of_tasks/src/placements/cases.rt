//! A task to place, and the processor that it is to get.

use super::pieces::Piece;
use dd_kernels::Mode;

#[derive(Clone, Copy)]
pub enum Step {
    /// A region runs.
    Run(u32),
    /// An array moves to a space.
    Move(u32, u32),
    Other,
}

pub struct Case {
    pub name: &'static str,
    pub spaces: u32,
    /// The space of each processor.
    pub procs: &'static [u32],
    pub steps: &'static [Step],
    pub region: u32,
    pub pieces: &'static [(Piece, Mode)],
    pub earlier: &'static [u32],
    pub wanted: u32,
}
