ghost use Rattle.std.specs.Prelude.{◌≡◌, ℕ, ◌+◌, ◌-◌, ◌^◌, ◌≤◌, ◌<◌, length};
ghost use Rattle.dd_blocks.specs.Numbered.{IsNumberIn};
ghost use Rattle.dd_blocks.specs.WellFormed.{IsWellFormed};
ghost use Rattle.dd_pool.specs.Outs.{AreSlotsOf, AreSlotsOf-prop};
ghost use Rattle.dd_pool.specs.Places.{IsPlace, cell_count};

use crate::cells::Cells;
use crate::copies::Copies;
use crate::places::{cell_count, place_of};
use crate::spilled::Spilled;
use dd_blocks::Plan;
use dd_spans::Runs;
use dd_stamps::{Stamped, Work};
use dd_store::Store;
use std::alloc::{AllocError, Global};

/// The copies of the blocks of a Plan, in memory and in slots, and how many names each array has.
#[derive(Drop)]
pub struct Pool<'p, D: Store> {
    pub(crate) plan: &'p Plan,
    pub(crate) copies: Copies<'p>,
    pub(crate) outs: Cells<Spilled<'p, D::Slot>>,
    // How many names each array has.
    pub(crate) names: Vec<u32>,
    ghost planned: { copies.plan ≡ plan },
    ghost few: { cell_count plan.now < 2 ^ 63 },
    ghost deep: { length outs.keys.items ≡ cell_count plan.now },
    ghost listed: { length names.items ≡ length plan.now.arrays },
    // Each slot is of the Plan, and of the block of its cell.
    ghost ours: { AreSlotsOf plan outs } by { AreSlotsOf-prop plan outs },
}

impl<'p, D: Store> Pool<'p, D> {
    ghost use Rattle.std.specs.Prelude.{◌≢◌, Some, None, IfOk, OnOk, IfErr, OnErr, IfSome, IsSome, IsSomeAnd, option_copied};
    ghost use Rattle.dd_stamps.specs.Copies.{MayStore, MayTake, Stores, TakesFrom};
    ghost use Rattle.dd_pool.specs.Copies.{HasMoreSpare, HasRoomFor, HoldsSame, Shifts};
    ghost use Rattle.dd_pool.specs.Keys.{AreBoth, AreThree};
    ghost use Rattle.dd_pool.specs.Pools.{HasCopy, HasNames, HasOut, KeepsCopies, KeepsRest, bytes_at, copy_at, names_of, out_at};

    /// A pool without copies, slots and names. It takes the memory for the counts of all arrays.
    ///
    /// # Errors
    /// Want of memory.
    pub fn new(alloc: Global, plan: &'p Plan) -> Result<Pool<'p, D>, AllocError>
        requires { IsWellFormed plan.now }
        ensures plan { IfOk result (λ p. p.plan ≡ plan.entry) }
        ensures copies { IfOk result (λ p. (s b : ℕ) → copy_at p s b ≡ None) }
        ensures outs { IfOk result (λ p. (s b : ℕ) → out_at p s b ≡ None) }
        ensures names { IfOk result (λ p. (a : ℕ) → IsNumberIn plan.now.arrays a → names_of p a ≡ 0) }
    {
        Ok(Pool {
            plan,
            copies: Copies::new(alloc, plan)?,
            outs: Cells::new(alloc, cell_count(plan))?,
            names: vec![in alloc; 0; plan.arrays.as_slice().len()]?,
        })
    }

    /// The copy of a block in the memory of a space, where there is one. It takes no memory.
    pub fn copy_at(&self, space: u32, block: u32) -> Option<&Stamped<'p>>
        requires { IsPlace self.now.plan.now space block }
        ensures value { option_copied result ≡ copy_at self.now space block }
        ensures ours { IfSome result (λ copy. (copy.now.plan ≡ self.now.plan) × (copy.now.block ≡ block)) }
    {
        self.copies.get(space, block)
    }

    /// The bytes of the copies in the memory of a space: 8 times their elements. It takes no memory, and goes through no
    /// blocks.
    pub fn bytes(&self, space: u32) -> u64
        requires { IsNumberIn self.now.plan.now.spaces space }
        ensures { result ≡ bytes_at self.now space }
    {
        self.copies.bytes(space)
    }

    /// Puts a copy into the memory of a space that has none of its block.
    ///
    /// # Errors
    /// Want of memory. The copy comes back, and the pool is as before.
    pub fn put(&mut self, space: u32, copy: Stamped<'p>) -> Result<(), (Stamped<'p>, AllocError)>
        requires plan { copy.plan ≡ self.old.plan }
        requires place { IsPlace self.old.plan.now space copy.block }
        requires none { copy_at self.old space copy.block ≡ None }
        ensures ok { OnOk result (HasCopy self.old self.new space copy.entry.block (Some copy.entry)) }
        ensures err { OnErr result (HoldsSame self.old.copies self.new.copies) }
        ensures rest { KeepsRest self.old self.new }
        ensures back { IfErr result (λ e. e.0 ≡ copy.entry) }
    {
        match self.copies.put(space, copy) {
            Ok(()) => Ok(()),
            Err(copy) => Err((copy, AllocError)),
        }
    }

    /// Takes a copy out of the memory of a space, where there is one. It takes no memory.
    pub fn take(&mut self, space: u32, block: u32) -> Option<Stamped<'p>>
        requires { IsPlace self.old.plan.now space block }
        ensures value { result ≡ copy_at self.old space block }
        ensures ours { IfSome result (λ copy. (copy.plan ≡ self.old.plan) × (copy.block ≡ block)) }
        ensures left { HasCopy self.old self.new space block None }
    {
        self.copies.take(space, block)
    }

    /// A copy goes to another space, which has none of its block. It takes no memory.
    pub fn shift(&mut self, space: u32, block: u32, to: u32)
        requires place { IsPlace self.old.plan.now space block }
        requires to { IsPlace self.old.plan.now to block }
        requires apart { to ≢ space }
        requires there { IsSome (copy_at self.old space block) }
        requires none { copy_at self.old to block ≡ None }
        ensures copies { Shifts self.old.copies self.new.copies space block to }
        ensures rest { KeepsRest self.old self.new }
    {
        self.copies.shift(space, block, to);
    }

    /// Makes the spare of a copy's versions at least so many runs. Nothing else changes.
    ///
    /// # Errors
    /// Want of memory. The spare is no smaller than it was.
    pub fn reserve(&mut self, space: u32, block: u32, runs: u64) -> Result<(), AllocError>
        requires place { IsPlace self.old.plan.now space block }
        requires there { IsSome (copy_at self.old space block) }
        ensures kept { AreBoth (λ c d. HasMoreSpare c d × HasCopy self.old self.new space block (Some d))
            (copy_at self.old space block) (copy_at self.new space block) }
        ensures ok { OnOk result (IsSomeAnd (copy_at self.new space block) (λ c. runs ≤ c.versions.spare)) }
    {
        self.copies.reserve(space, block, runs)
    }

    /// Some places of a copy take what another copy of the block has. All other copies stay. It takes no memory.
    pub fn take_places(&mut self, space: u32, block: u32, other: &Stamped<'p>, places: &Runs)
        requires place { IsPlace self.old.plan.now space block }
        requires there { IsSomeAnd (copy_at self.old space block) (λ c. MayTake c other.now places.now.list) }
        ensures taken { AreBoth (λ c d. TakesFrom c other.now d places.now.list × HasCopy self.old self.new space block (Some d))
            (copy_at self.old space block) (copy_at self.new space block) }
    {
        self.copies.take_places(space, block, other, places);
    }

    /// Some places of a copy take what the copy of the block in another space has. All other copies stay. It takes no memory.
    pub fn move_places(&mut self, space: u32, block: u32, from: u32, places: &Runs)
        requires place { IsPlace self.old.plan.now space block }
        requires from { IsPlace self.old.plan.now from block }
        requires apart { from ≢ space }
        requires there { IsSomeAnd (copy_at self.old space block) (λ c. HasRoomFor c places.now.list) }
        requires other { IsSome (copy_at self.old from block) }
        ensures taken { AreThree (λ c other d. TakesFrom c other d places.now.list × HasCopy self.old self.new space block (Some d))
            (copy_at self.old space block) (copy_at self.old from block) (copy_at self.new space block) }
    {
        self.copies.move_places(space, block, from, places);
    }

    /// The elements of a copy's block that a task writes take what it made, with its number for their version. All other copies
    /// stay. It takes no memory.
    pub fn store_outputs(&mut self, space: u32, block: u32, work: &Work<'p>)
        requires well { IsWellFormed self.old.plan.now }
        requires place { IsPlace self.old.plan.now space block }
        requires there { IsSomeAnd (copy_at self.old space block) (λ c. MayStore c work.now) }
        ensures stored { AreBoth (λ c d. Stores c work.now d × HasCopy self.old self.new space block (Some d))
            (copy_at self.old space block) (copy_at self.new space block) }
    {
        self.copies.store_outputs(space, block, work);
    }

    /// Puts a slot of the Plan beside the copies, for its block, of which the space has neither a copy nor a slot.
    ///
    /// # Errors
    /// Want of memory. The slot comes back, and the pool is as before.
    pub fn put_out(
        &mut self,
        space: u32,
        block: u32,
        out: Spilled<'p, D::Slot>,
    ) -> Result<(), (Spilled<'p, D::Slot>, AllocError)>
        requires place { IsPlace self.old.plan.now space block }
        requires plan { out.plan ≡ self.old.plan }
        requires block { out.block ≡ block }
        requires no_copy { copy_at self.old space block ≡ None }
        requires no_slot { out_at self.old space block ≡ None }
        ensures ok { OnOk result (HasOut self.old self.new space block (Some out.entry)) }
        ensures err { OnErr result ((s b : ℕ) → out_at self.new s b ≡ out_at self.old s b) }
        ensures rest { KeepsCopies self.old self.new }
        ensures back { IfErr result (λ e. e.0 ≡ out.entry) }
    {
        match self.outs.put(place_of(self.plan, space, block), out) {
            Ok(()) => Ok(()),
            Err(out) => Err((out, AllocError)),
        }
    }

    /// Takes out the slot of a block of a space, where there is one. It takes no memory.
    pub fn take_out(&mut self, space: u32, block: u32) -> Option<Spilled<'p, D::Slot>>
        requires { IsPlace self.old.plan.now space block }
        ensures value { result ≡ out_at self.old space block }
        ensures ours { IfSome result (λ out. (out.plan ≡ self.old.plan) × (out.block ≡ block)) }
        ensures left { HasOut self.old self.new space block None }
    {
        self.outs.take(place_of(self.plan, space, block))
    }

    /// How many names an array has. It takes no memory.
    pub fn names(&self, array: u32) -> u32
        requires { IsNumberIn self.now.plan.now.arrays array }
        ensures { result ≡ names_of self.now array }
    {
        self.names[array as usize - 1]
    }

    /// Gives an array a name. It takes no memory.
    pub fn share(&mut self, array: u32)
        requires array { IsNumberIn self.old.plan.now.arrays array }
        requires fewer { names_of self.old array < 2 ^ 32 - 1 }
        ensures { HasNames self.old self.new array (names_of self.old array + 1) }
    {
        self.names[array as usize - 1] += 1;
    }

    /// Takes a name of an array off, and answers how many are left. At 0 the array's blocks are of no use any more. It takes
    /// no memory.
    pub fn release(&mut self, array: u32) -> u32
        requires array { IsNumberIn self.old.plan.now.arrays array }
        requires named { 1 ≤ names_of self.old array }
        ensures left { result + 1 ≡ names_of self.old array }
        ensures names { HasNames self.old self.new array result }
    {
        self.names[array as usize - 1] -= 1;
        self.names[array as usize - 1]
    }
}
