//! Which elements a task, or the write-back, has to get, and from where.
ghost use Rattle.std.specs.Prelude.{◌≡◌, ◌↔◌, ◌<◌, ◌≤◌, ℕ, length, slice_index, if◌then◌else◌, IfOk};
ghost use Rattle.dd_blocks.specs.WellFormed.{IsWellFormed};
ghost use Rattle.dd_tables.specs.Places.{IsPlace};
ghost use Rattle.dd_tables.specs.Sized.{IsSized};
ghost use Rattle.dd_machine.specs.Effects.{versions_where};
ghost use Rattle.dd_tables.specs.Fetches.{is_fetched};
ghost use Rattle.dd_tables.specs.Tables.{state_of};
ghost use Rattle.dd_machine.specs.Needed.{is_current, is_current_at, is_needed, needed, own_space, is_read_current, reads_current, source_in};
ghost use Rattle.dd_machine.specs.Words.{IsOneOf, blocks, element, place, reads, size, tasks};

use crate::elements::Element;
use crate::rows::{is_of, place, size};
use crate::tables::Tables;
use dd_blocks::Plan;
use dd_spans::{RunMap, Runs};
use std::alloc::AllocError;

/// Whether a task reads the element at a place of a block.
#[tactic(auto, unfolding(dd_machine::specs::Words::reads))]
pub fn reads(plan: &Plan, task: u32, block: u32, i: u64) -> bool
    requires well { IsWellFormed plan.now }
    requires task { IsOneOf (tasks plan.now) task }
    requires place { IsPlace plan.now block i }
    ensures { result ≡ reads plan.now task (element plan.now block i) }
{
    Element::at(plan, block, i).is_read_by(plan.task(task))
}

impl Tables {
    /// The space of a task; for 0 the block's home.
    pub fn own_space(&self, plan: &Plan, task: u32, block: u32) -> u32
        requires well { IsWellFormed plan.now }
        requires task { task ≤ tasks plan.now }
        ensures { result ≡ own_space plan.now (state_of plan.now self.now) task block }
    {
        if task == 0 {
            self.home_of(block)
        } else {
            place(plan, task)
        }
    }

    /// The space that a version comes from.
    fn source(&self, plan: &Plan, home: u32, version: u32) -> u32
        requires { IsWellFormed plan.now }
        ensures { result ≡ source_in plan.now self.now.region home version }
    {
        match self.region {
            Some(region) if is_of(plan, region, version) => place(plan, version),
            _ => home,
        }
    }

    /// Whether a copy has the current version at a place.
    fn is_current_at(&self, plan: &Plan, space: u32, block: u32, i: u64) -> bool
        requires well { IsWellFormed plan.now }
        requires sized { IsSized plan.now self.now }
        requires place { IsPlace plan.now block i }
        ensures { result ≡ is_current_at plan.now (state_of plan.now self.now) space block i }
    {
        self.copies.version(space, block, i) == self.current_at(plan, block, i)
    }

    /// Whether all versions of a copy are current.
    pub fn is_current(&self, plan: &Plan, space: u32, block: u32) -> bool
        requires well { IsWellFormed plan.now }
        requires sized { IsSized plan.now self.now }
        requires block { IsOneOf (blocks plan.now) block }
        ensures { result ≡ is_current plan.now (state_of plan.now self.now) space block }
    {
        for i in 0..size(plan, block) {
            if !self.is_current_at(plan, space, block, i) {
                return false;
            }
        }
        true
    }

    /// Whether a task, or for 0 the write-back, gets the current version at a place of a block from a space, into a copy that
    /// has this version there.
    fn is_fetched(
        &self,
        plan: &Plan,
        task: u32,
        block: u32,
        from: u32,
        i: u64,
        version: u32,
    ) -> bool
        requires well { IsWellFormed plan.now }
        requires sized { IsSized plan.now self.now }
        requires task { task ≤ tasks plan.now }
        requires place { IsPlace plan.now block i }
        ensures { result ≡ is_fetched plan.now (state_of plan.now self.now) task block from i version }
    {
        let current = self.current_at(plan, block, i);
        version != current
            && self.source(plan, self.home_of(block), current) == from
            && (task == 0 || reads(plan, task, block, i))
    }

    /// Whether the element at a place of a block is needed by a task, or for 0 by the write-back, from a space.
    pub fn is_needed(&self, plan: &Plan, task: u32, block: u32, from: u32, i: u64) -> bool
        requires well { IsWellFormed plan.now }
        requires sized { IsSized plan.now self.now }
        requires task { task ≤ tasks plan.now }
        requires place { IsPlace plan.now block i }
        ensures { result ≡ is_needed plan.now (state_of plan.now self.now) task block from i }
    {
        let own = self.own_space(plan, task, block);
        let version = self.copies.version(own, block, i);
        self.is_fetched(plan, task, block, from, i, version)
    }

    /// The version at a place of a copy once the needed elements came from a space.
    fn fetched(&self, plan: &Plan, task: u32, block: u32, from: u32, i: u64, version: u32) -> u32
        requires well { IsWellFormed plan.now }
        requires sized { IsSized plan.now self.now }
        requires task { task ≤ tasks plan.now }
        requires place { IsPlace plan.now block i }
        ensures { result
            ≡ (if is_fetched plan.now (state_of plan.now self.now) task block from i version
            then (state_of plan.now self.now).current (element plan.now block i) else version) }
    {
        if self.is_fetched(plan, task, block, from, i, version) {
            self.current_at(plan, block, i)
        } else {
            version
        }
    }

    /// The versions of a copy take the current ones where they are needed from a space.
    pub fn fetch_versions(
        &self,
        plan: &Plan,
        versions: &mut RunMap,
        task: u32,
        block: u32,
        from: u32,
    )
        requires well { IsWellFormed plan.now }
        requires sized { IsSized plan.now self.now }
        requires task { task ≤ tasks plan.now }
        requires block { IsOneOf (blocks plan.now) block }
        requires len { length versions.old.list ≡ size plan.now block }
        ensures { versions.new.list
            ≡ versions_where (λ i. is_fetched plan.now (state_of plan.now self.now) task block from i (slice_index versions.old.list i))
            (λ i. (state_of plan.now self.now).current (element plan.now block i)) 0 versions.old.list }
    {
        for i in 0..size(plan, block) {
            let version = self.fetched(plan, task, block, from, i, versions.get(i));
            versions.set(i, version);
        }
    }

    /// How many elements of a block are needed.
    pub fn needed_len(&self, plan: &Plan, task: u32, block: u32, from: u32) -> u64
        requires well { IsWellFormed plan.now }
        requires sized { IsSized plan.now self.now }
        requires task { task ≤ tasks plan.now }
        requires block { IsOneOf (blocks plan.now) block }
        ensures { result ≡ length (needed plan.now (state_of plan.now self.now) task block from) }
    {
        let mut count = 0;
        for i in 0..size(plan, block) {
            if self.is_needed(plan, task, block, from, i) {
                count += 1;
            }
        }
        count
    }

    /// Whether the place of a task's copy has the current version, or the task doesn't read it.
    fn is_read_current(&self, plan: &Plan, task: u32, space: u32, block: u32, i: u64) -> bool
        requires well { IsWellFormed plan.now }
        requires sized { IsSized plan.now self.now }
        requires task { IsOneOf (tasks plan.now) task }
        requires own { space ≡ place plan.now task }
        requires place { IsPlace plan.now block i }
        ensures { result ≡ is_read_current plan.now (state_of plan.now self.now) task block i }
    {
        self.is_current_at(plan, space, block, i) || !reads(plan, task, block, i)
    }

    /// Whether a task's copy of a block has the current version of each element that the task reads.
    pub fn reads_current(&self, plan: &Plan, task: u32, block: u32) -> bool
        requires well { IsWellFormed plan.now }
        requires sized { IsSized plan.now self.now }
        requires task { IsOneOf (tasks plan.now) task }
        requires block { IsOneOf (blocks plan.now) block }
        ensures { result ≡ reads_current plan.now (state_of plan.now self.now) task block }
    {
        let space = place(plan, task);
        for i in 0..size(plan, block) {
            if !self.is_read_current(plan, task, space, block, i) {
                return false;
            }
        }
        true
    }

    /// The places of the needed elements, as a list.
    fn needed_places(
        &self,
        plan: &Plan,
        task: u32,
        block: u32,
        from: u32,
    ) -> Result<Vec<u64>, AllocError>
        requires well { IsWellFormed plan.now }
        requires sized { IsSized plan.now self.now }
        requires task { task ≤ tasks plan.now }
        requires block { IsOneOf (blocks plan.now) block }
        ensures { IfOk result (λ places. places.items ≡ needed plan.now (state_of plan.now self.now) task block from) }
    {
        let mut places = Vec::new(*self.homes.allocator());
        for i in 0..size(plan, block) {
            if self.is_needed(plan, task, block, from, i) {
                places.push(i)?;
            }
        }
        Ok(places)
    }

    /// The places in a block of the elements that a task, or for 0 the write-back, needs from a space.
    ///
    /// # Errors
    /// Want of memory.
    pub fn needed(&self, plan: &Plan, task: u32, block: u32, from: u32) -> Result<Runs, AllocError>
        requires well { IsWellFormed plan.now }
        requires sized { IsSized plan.now self.now }
        requires task { task ≤ tasks plan.now }
        requires block { IsOneOf (blocks plan.now) block }
        ensures { IfOk result (λ runs. runs.list ≡ needed plan.now (state_of plan.now self.now) task block from) }
    {
        let places = self.needed_places(plan, task, block, from)?;
        Runs::of_list(*places.allocator(), places.as_slice())
    }
}
