ghost use Rattle.std.specs.Prelude.{◌≡◌, ◌+◌, ◌-◌, ◌^◌, ◌<◌, ◌≤◌, length, slice_index, slice_set};
ghost use Rattle.dd_blocks.specs.Numbered.{IsNumberIn};
ghost use Rattle.dd_pool.specs.Held.{AreCounted, AreOurs, AreOurs-prop};
ghost use Rattle.dd_pool.specs.Places.{bytes_of_blocks, cell_count};

use crate::cells::Cells;
use crate::places::{bytes_of, cell_count, place_of};
use dd_blocks::Plan;
use dd_spans::Runs;
use dd_stamps::{Stamped, Work};
use std::alloc::{AllocError, Global};

/// The copies in the memory of each space: at most one of each block, each of the Plan.
#[derive(Drop)]
pub(crate) struct Copies<'p> {
    pub(crate) plan: &'p Plan,
    pub(crate) cells: Cells<Stamped<'p>>,
    // The bytes of the copies of each space.
    pub(crate) sizes: Vec<u64>,
    ghost few: { cell_count plan.now < 2 ^ 63 },
    ghost light: { bytes_of_blocks plan.now < 2 ^ 64 },
    ghost wide: { length cells.keys.items ≡ cell_count plan.now },
    ghost spaces: { length sizes.items ≡ length plan.now.spaces },
    ghost ours: { AreOurs plan cells } by { AreOurs-prop plan cells },
    ghost counted: { AreCounted plan.now cells sizes.items },
}

impl<'p> Copies<'p> {
    ghost use Rattle.std.specs.Prelude.{◌≢◌, ℕ, Some, None, IfOk, OnOk, IfErr, OnErr, IfSome, OnSome, IsSome, IsSomeAnd, option_copied};
    ghost use Rattle.slab.specs.Slab.{slab_len};
    ghost use Rattle.dd_blocks.specs.WellFormed.{IsWellFormed};
    ghost use Rattle.dd_stamps.specs.Copies.{MayStore, MayTake, Stores, TakesFrom};
    ghost use Rattle.dd_pool.specs.Copies.{HasMoreSpare, HasRoomFor, Holds, HoldsSame, Shifts, held_at, held_bytes};
    ghost use Rattle.dd_pool.specs.Keys.{AreBoth, AreThree};
    ghost use Rattle.dd_pool.specs.Places.{IsPlace};

    /// No copies.
    ///
    /// # Errors
    /// Want of memory.
    pub(crate) fn new(alloc: Global, plan: &'p Plan) -> Result<Copies<'p>, AllocError>
        requires few { cell_count plan.now < 2 ^ 63 }
        requires light { bytes_of_blocks plan.now < 2 ^ 64 }
        ensures plan { IfOk result (λ c. c.plan ≡ plan.entry) }
        ensures none { IfOk result (λ c. (s b : ℕ) → held_at c s b ≡ None) }
    {
        Ok(Copies {
            plan,
            cells: Cells::new(alloc, cell_count(plan))?,
            sizes: vec![in alloc; 0; plan.spaces.as_slice().len()]?,
        })
    }

    /// The copy of a block in the memory of a space.
    pub(crate) fn get(&self, space: u32, block: u32) -> Option<&Stamped<'p>>
        requires { IsPlace self.now.plan.now space block }
        ensures value { option_copied result ≡ held_at self.now space block }
        ensures ours { IfSome result (λ copy. (copy.now.plan ≡ self.now.plan) × (copy.now.block ≡ block)) }
    {
        self.cells.get(place_of(self.plan, space, block))
    }

    /// The bytes of the copies of a space.
    pub(crate) fn bytes(&self, space: u32) -> u64
        requires { IsNumberIn self.now.plan.now.spaces space }
        ensures { result ≡ held_bytes self.now space }
    {
        self.sizes[space as usize - 1]
    }

    /// Puts a copy into the memory of a space that has none of its block.
    ///
    /// # Errors
    /// Want of memory. The copy comes back, and all is as before.
    pub(crate) fn put(&mut self, space: u32, copy: Stamped<'p>) -> Result<(), Stamped<'p>>
        requires plan { copy.plan ≡ self.old.plan }
        requires place { IsPlace self.old.plan.now space copy.block }
        requires none { held_at self.old space copy.block ≡ None }
        ensures ok { OnOk result (Holds self.old self.new space copy.entry.block (Some copy.entry)) }
        ensures err { OnErr result (HoldsSame self.old self.new) }
        ensures back { IfErr result (λ c. c ≡ copy.entry) }
    {
        let block = copy.block();
        let at = place_of(self.plan, space, block);
        let bytes = bytes_of(self.plan, block);
        match self.cells.put(at, copy) {
            Ok(()) => {
                add(&mut self.sizes, space, bytes);
                Ok(())
            }
            Err(copy) => Err(copy),
        }
    }

    /// Takes a copy out of the memory of a space, where there is one.
    pub(crate) fn take(&mut self, space: u32, block: u32) -> Option<Stamped<'p>>
        requires { IsPlace self.old.plan.now space block }
        ensures value { result ≡ held_at self.old space block }
        ensures left { Holds self.old self.new space block None }
        ensures ours { IfSome result (λ copy. (copy.plan ≡ self.old.plan) × (copy.block ≡ block)) }
        ensures room { OnSome result (slab_len self.new.cells.entries + 1 ≤ self.new.cells.entries.capacity) }
    {
        let at = place_of(self.plan, space, block);
        let bytes = bytes_of(self.plan, block);
        match self.cells.take(at) {
            Some(copy) => {
                lower(&mut self.sizes, space, bytes);
                Some(copy)
            }
            None => None,
        }
    }

    /// Puts a copy into the memory of a space that has none of its block, where there is room for it.
    fn put_back(&mut self, space: u32, copy: Stamped<'p>)
        requires plan { copy.plan ≡ self.old.plan }
        requires place { IsPlace self.old.plan.now space copy.block }
        requires none { held_at self.old space copy.block ≡ None }
        requires room { slab_len self.old.cells.entries + 1 ≤ self.old.cells.entries.capacity }
        ensures { Holds self.old self.new space copy.entry.block (Some copy.entry) }
    {
        let block = copy.block();
        let at = place_of(self.plan, space, block);
        let bytes = bytes_of(self.plan, block);
        self.cells.put_back(at, copy);
        add(&mut self.sizes, space, bytes);
    }

    /// A copy goes to another space, which has none of its block.
    pub(crate) fn shift(&mut self, space: u32, block: u32, to: u32)
        requires place { IsPlace self.old.plan.now space block }
        requires to { IsPlace self.old.plan.now to block }
        requires apart { to ≢ space }
        requires there { IsSome (held_at self.old space block) }
        requires none { held_at self.old to block ≡ None }
        ensures { Shifts self.old self.new space block to }
    {
        let Some(copy) = self.take(space, block) else {
            unreachable!()
        };
        self.put_back(to, copy);
    }

    /// Makes the spare of a copy's versions at least so many runs.
    ///
    /// # Errors
    /// Want of memory. The spare is no smaller than it was.
    pub(crate) fn reserve(&mut self, space: u32, block: u32, runs: u64) -> Result<(), AllocError>
        requires place { IsPlace self.old.plan.now space block }
        requires there { IsSome (held_at self.old space block) }
        ensures kept { AreBoth HasMoreSpare (held_at self.old space block) (held_at self.new space block) }
        ensures ok { OnOk result (IsSomeAnd (held_at self.new space block) (λ c. runs ≤ c.versions.spare)) }
        ensures others { (s b : ℕ) → IsPlace self.old.plan.now s b → (s ≡ space → b ≡ block → ⊥) → held_at self.new s b ≡ held_at self.old s b }
        ensures plan { self.new.plan ≡ self.old.plan }
    {
        let at = place_of(self.plan, space, block);
        let Some(mut copy) = self.cells.take(at) else {
            unreachable!()
        };
        let reserved = copy.reserve(runs);
        self.cells.put_back(at, copy);
        reserved
    }

    /// Some places of a copy take what another has.
    pub(crate) fn take_places(&mut self, space: u32, block: u32, other: &Stamped<'p>, places: &Runs)
        requires place { IsPlace self.old.plan.now space block }
        requires there { IsSomeAnd (held_at self.old space block) (λ c. MayTake c other.now places.now.list) }
        ensures taken { AreBoth (λ c d. TakesFrom c other.now d places.now.list) (held_at self.old space block) (held_at self.new space block) }
        ensures others { (s b : ℕ) → IsPlace self.old.plan.now s b → (s ≡ space → b ≡ block → ⊥) → held_at self.new s b ≡ held_at self.old s b }
        ensures plan { self.new.plan ≡ self.old.plan }
    {
        let at = place_of(self.plan, space, block);
        let Some(mut copy) = self.cells.take(at) else {
            unreachable!()
        };
        copy.take_from(other, places);
        self.cells.put_back(at, copy);
    }

    /// Some places of a copy take what the copy of the block in another space has.
    pub(crate) fn move_places(&mut self, space: u32, block: u32, from: u32, places: &Runs)
        requires place { IsPlace self.old.plan.now space block }
        requires from { IsPlace self.old.plan.now from block }
        requires apart { from ≢ space }
        requires there { IsSomeAnd (held_at self.old space block) (λ c. HasRoomFor c places.now.list) }
        requires other { IsSome (held_at self.old from block) }
        ensures taken { AreThree (λ c other d. TakesFrom c other d places.now.list) (held_at self.old space block) (held_at self.old from block) (held_at self.new space block) }
        ensures others { (s b : ℕ) → IsPlace self.old.plan.now s b → (s ≡ space → b ≡ block → ⊥) → held_at self.new s b ≡ held_at self.old s b }
        ensures plan { self.new.plan ≡ self.old.plan }
    {
        let at = place_of(self.plan, space, block);
        let other_at = place_of(self.plan, from, block);
        let Some(mut copy) = self.cells.take(at) else {
            unreachable!()
        };
        let Some(other) = self.cells.get(other_at) else {
            unreachable!()
        };
        copy.take_from(other, places);
        self.cells.put_back(at, copy);
    }

    /// The elements of a copy's block that a task writes take what it made.
    pub(crate) fn store_outputs(&mut self, space: u32, block: u32, work: &Work<'p>)
        requires well { IsWellFormed self.old.plan.now }
        requires place { IsPlace self.old.plan.now space block }
        requires there { IsSomeAnd (held_at self.old space block) (λ c. MayStore c work.now) }
        ensures stored { AreBoth (λ c d. Stores c work.now d) (held_at self.old space block) (held_at self.new space block) }
        ensures others { (s b : ℕ) → IsPlace self.old.plan.now s b → (s ≡ space → b ≡ block → ⊥) → held_at self.new s b ≡ held_at self.old s b }
        ensures plan { self.new.plan ≡ self.old.plan }
    {
        let at = place_of(self.plan, space, block);
        let Some(mut copy) = self.cells.take(at) else {
            unreachable!()
        };
        copy.store_outputs(work);
        self.cells.put_back(at, copy);
    }
}

// Adds bytes to the number of a space.
fn add(sizes: &mut Vec<u64>, space: u32, bytes: u64)
    requires space { IsNumberIn sizes.old.items space }
    requires fits { slice_index sizes.old.items (space - 1) + bytes < 2 ^ 64 }
    ensures { sizes.new.items ≡ slice_set sizes.old.items (space - 1) (slice_index sizes.old.items (space - 1) + bytes) }
{
    sizes[space as usize - 1] += bytes;
}

// Takes bytes off the number of a space.
fn lower(sizes: &mut Vec<u64>, space: u32, bytes: u64)
    requires space { IsNumberIn sizes.old.items space }
    requires fits { bytes ≤ slice_index sizes.old.items (space - 1) }
    ensures { sizes.new.items ≡ slice_set sizes.old.items (space - 1) (slice_index sizes.old.items (space - 1) - bytes) }
{
    sizes[space as usize - 1] -= bytes;
}
