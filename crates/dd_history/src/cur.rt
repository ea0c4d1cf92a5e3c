//! The current versions.
ghost use Rattle.std.specs.Prelude.{◌≡◌, ◌<◌, ◌≤◌, ℕ, filter, length, replicate, slice_index, All, IfOk, OnOk};
ghost use Rattle.dd_blocks.specs.declared.plan.Plan.{Plan};
ghost use Rattle.dd_blocks.specs.Elements.{Element};
ghost use Rattle.dd_blocks.specs.Layout.{elements_in};
ghost use Rattle.dd_blocks.specs.Numbered.{IsNumberIn, block_row};
ghost use Rattle.dd_blocks.specs.PlanElements.{IsElement, number_of};
ghost use Rattle.dd_blocks.specs.WellFormed.{IsWellFormed};
ghost use Rattle.dd_history.specs.Currents.{AreVersions, IsFinished, is_lacking};
ghost use Rattle.dd_meaning.specs.Moves.{source_of};

use crate::rows::{array_of, element_count, home_in_region, source_in};
use crate::sought::Sought;
use crate::views::set_written;
use dd_blocks::Plan;
use dd_spans::{RunMap, Runs};
use std::alloc::{AllocError, Global};
use std::marker::Model;

/// The current version of each element of a Plan, by the elements' numbers, from 0. It is seen as the list of versions and
/// the spare of a `RunMap`.
#[derive(Debug, Drop)]
pub struct Cur {
    versions: RunMap,
}

impl Model for Cur {
    ghost use Rattle.dd_spans.specs.PlaceMap.{PlaceMap};

    ghost Value = { PlaceMap };

    ghost view = { λ c. c.versions };
}

impl Cur {
    /// All elements as they are at first.
    ///
    /// # Errors
    /// Want of memory.
    pub fn new(alloc: Global, plan: &Plan) -> Result<Cur, AllocError>
        requires { IsWellFormed plan.now }
        ensures list { IfOk result (λ cur. cur.list ≡ replicate (elements_in plan.now.arrays) 0) }
        ensures versions { IfOk result (λ cur. AreVersions plan.now cur.list) }
    {
        Ok(Cur {
            versions: RunMap::new(alloc, element_count(plan), 0)?,
        })
    }

    /// How many elements there are.
    pub fn len(&self) -> u64
        ensures { result ≡ length self.now.list }
    {
        self.versions.len()
    }

    /// The version of an element.
    pub fn version(&self, element: u64) -> u32
        requires { element < length self.now.list }
        ensures { result ≡ slice_index self.now.list element }
    {
        self.versions.get(element)
    }

    /// Makes the spare at least so many runs.
    ///
    /// # Errors
    /// Want of memory. The versions are as they were, and the spare is no smaller.
    pub fn reserve(&mut self, runs: u64) -> Result<(), AllocError>
        ensures ok { OnOk result (runs ≤ self.new.spare) }
        ensures list { self.new.list ≡ self.old.list }
        ensures kept { self.old.spare ≤ self.new.spare }
    {
        self.versions.reserve(runs)
    }

    /// A task is done: each element that it writes has its number from now on. It takes no memory, and leaves the spare.
    pub fn finish(&mut self, plan: &Plan, task: u32)
        requires well { IsWellFormed plan.now }
        requires versions { AreVersions plan.now self.old.list }
        requires task { IsNumberIn plan.now.tasks task }
        ensures finished { IsFinished plan.now task self.old.list self.new.list }
        ensures versions { AreVersions plan.now self.new.list }
        ensures spare { self.new.spare ≡ self.old.spare }
    {
        set_written(&mut self.versions, plan, task);
    }

    /// The space that has the current version of an element in a region: that of the task that wrote it, where this is of
    /// the region, or else the element's home when the region begins.
    pub fn source(&self, plan: &Plan, region: u32, element: u64) -> u32
        requires well { IsWellFormed plan.now }
        requires versions { AreVersions plan.now self.now.list }
        requires element { element < elements_in plan.now.arrays }
        ensures { (e : Element) → IsElement plan.now e → number_of plan.now e ≡ element
            → result ≡ source_of plan.now region e (slice_index self.now.list element) }
    {
        let array = array_of(plan, element);
        let row = plan.array(array);
        let block = row.first_block + row.grid.block_of(element - row.first_element) as u32;
        source_in(
            plan,
            region,
            home_in_region(plan, region, block),
            self.version(element),
        )
    }

    /// The wanted places of a block where the version that is held isn't the current one, and the current one is to be had
    /// from a space.
    ///
    /// # Errors
    /// Want of memory.
    pub fn remainder(
        &self,
        plan: &Plan,
        region: u32,
        block: u32,
        wanted: &Runs,
        held: &RunMap,
        from: u32,
    ) -> Result<Runs, AllocError>
        requires well { IsWellFormed plan.now }
        requires versions { AreVersions plan.now self.now.list }
        requires block { IsNumberIn plan.now.blocks block }
        requires wanted { All (λ place. place < (block_row plan.now block).size) wanted.now.list }
        requires held { length held.now.list ≡ (block_row plan.now block).size }
        ensures { IfOk result (λ runs. runs.list
            ≡ filter (is_lacking plan.now region block self.now.list held.now.list from) wanted.now.list) }
    {
        let sought = Sought {
            plan,
            versions: &self.versions,
            held,
            region,
            block,
            home: home_in_region(plan, region, block),
            from,
        };
        sought.among(wanted)
    }
}
