//! What the lines above a line have made.
ghost use Rattle.std.specs.Prelude.{◌≡◌};
ghost use Rattle.dd_check.specs.Above.{nothing_above};
ghost use Rattle.dd_check.specs.Drafts.{IsSoundDraft, above_of};

use crate::names::Names;
use crate::opened::Opened;
use dd_blocks::{Plan, Policy, Rule};
use dd_views::Items;
use std::alloc::Global;

/// A Plan that grows line by line, with what a line has to know of those above it.
#[derive(Drop)]
pub(crate) struct Draft {
    /// The rows so far, without the tasks of a region that is open.
    pub(crate) plan: Plan,
    pub(crate) names: Names,
    /// How many names each array has.
    pub(crate) counts: Vec<u32>,
    /// For each array the space to which it was moved last, or 0.
    pub(crate) homes: Vec<u32>,
    pub(crate) opened: Option<Opened>,
    /// Whether a statement stands above that is not one on the machine.
    pub(crate) settled: bool,
    /// How many elements all arrays have.
    pub(crate) elements: u64,
    /// How many regions have ended.
    pub(crate) regions: u32,
    /// How often the rows touch blocks.
    pub(crate) touches: u64,
}

impl Draft {
    /// Above the first line.
    pub(crate) fn new(alloc: Global) -> Draft
        ensures above { above_of result ≡ nothing_above }
        ensures sound { IsSoundDraft result }
    {
        Draft {
            plan: Plan {
                spaces: Items::of(Vec::new(alloc)),
                procs: Items::of(Vec::new(alloc)),
                policy: Policy::Lru,
                rule: Rule::Rr,
                arrays: Items::of(Vec::new(alloc)),
                blocks: Items::of(Vec::new(alloc)),
                tasks: Items::of(Vec::new(alloc)),
                statements: Items::of(Vec::new(alloc)),
            },
            names: Names::new(alloc),
            counts: Vec::new(alloc),
            homes: Vec::new(alloc),
            opened: None,
            settled: false,
            elements: 0,
            regions: 0,
            touches: 0,
        }
    }
}
