//! The places of a block that are sought.
ghost use Rattle.std.specs.Prelude.{◌≡◌, ◌+◌, ◌<◌, ◌≤◌, ◌++◌, ◌^◌, filter, length, All, IfOk, OnOk};
ghost use Rattle.std.specs.List.{range_with_len};
ghost use Rattle.dd_blocks.specs.Numbered.{block_row};
ghost use Rattle.dd_history.specs.Asked.{IsAsked};
ghost use Rattle.dd_history.specs.Currents.{is_lacking};

use crate::rows::source_in;
use dd_blocks::Plan;
use dd_spans::{RunMap, Runs};
use std::alloc::AllocError;

/// What is asked of each place of a block.
#[derive(Drop)]
pub(crate) struct Sought<'a> {
    pub plan: &'a Plan,
    /// The current versions.
    pub versions: &'a RunMap,
    /// The versions of the copy.
    pub held: &'a RunMap,
    pub region: u32,
    pub block: u32,
    /// The home of the block when the region begins.
    pub home: u32,
    /// The space that the versions come from.
    pub from: u32,
}

impl Sought<'_> {
    /// Whether the copy lacks the current version of a place, and gets it from the space.
    fn is_lacking(&self, place: u64) -> bool
        requires asked { IsAsked self.now.plan.now self.now.region self.now.block self.now.home self.now.versions.now.list self.now.held.now.list }
        requires place { place < (block_row self.now.plan.now self.now.block).size }
        ensures { result ≡ is_lacking self.now.plan.now self.now.region self.now.block self.now.versions.now.list self.now.held.now.list self.now.from place }
    {
        let row = self.plan.array(self.plan.block(self.block).array);
        let within = u64::from(self.block - row.first_block);
        let version = self
            .versions
            .get(row.first_element + row.grid.pos_of(within, place));
        self.held.get(place) != version
            && source_in(self.plan, self.region, self.home, version) == self.from
    }

    /// Puts those of a run of places into a list. After want of memory some of them may be there.
    fn push_run(&self, first: u64, count: u64, places: &mut Vec<u64>) -> Result<(), AllocError>
        requires asked { IsAsked self.now.plan.now self.now.region self.now.block self.now.home self.now.versions.now.list self.now.held.now.list }
        requires within { first + count ≤ (block_row self.now.plan.now self.now.block).size }
        requires fits { first + count < 2 ^ 64 }
        ensures { OnOk result (places.new.items ≡ places.old.items
            ++ filter (is_lacking self.now.plan.now self.now.region self.now.block self.now.versions.now.list self.now.held.now.list self.now.from) (range_with_len first count)) }
    {
        for place in first..first + count {
            if self.is_lacking(place) {
                places.push(place)?;
            }
        }
        Ok(())
    }

    /// Those among the wanted ones.
    pub(crate) fn among(&self, wanted: &Runs) -> Result<Runs, AllocError>
        requires asked { IsAsked self.now.plan.now self.now.region self.now.block self.now.home self.now.versions.now.list self.now.held.now.list }
        requires wanted { All (λ place. place < (block_row self.now.plan.now self.now.block).size) wanted.now.list }
        ensures { IfOk result (λ runs. runs.list
            ≡ filter (is_lacking self.now.plan.now self.now.region self.now.block self.now.versions.now.list self.now.held.now.list self.now.from) wanted.now.list) }
    {
        let alloc = wanted.allocator();
        let mut places = Vec::new(alloc);
        let mut next = 0;
        while let Some((first, count)) = wanted.next_run(next) {
            self.push_run(first, count, &mut places)?;
            next = first + count;
        }
        Runs::of_list(alloc, &places)
    }
}
