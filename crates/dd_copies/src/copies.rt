//! The copies of all spaces.
ghost use Rattle.std.specs.Prelude.{◌≡◌, ℕ, Bool, false, [], option_map, length, replicate, slice_index, IfOk, IfSome, None, ◌↔◌, IsTrue, nat_eq};
ghost use Rattle.dd_copies.specs.CopyTables.{IsTable, cell_of, copies_of, seen, with_cell};
ghost use Rattle.dd_copies.specs.Numbers.{at_number, or_else};
ghost use Rattle.dd_machine.specs.declared.copy_state.CopyState.TheVariants.{Here};
ghost use Rattle.dd_machine.specs.Effects.{given_back, in_state, not_lent};
ghost use Rattle.dd_machine.specs.States.{at_copy};
ghost use Rattle.dd_machine.specs.Tests.{is_any, is_coming, is_held, is_here, is_here_or_coming, is_here_or_lent, is_idle, is_in_state, is_leaving, is_lent, is_out, versions_of};
ghost use Rattle.dd_machine.specs.Words.{IsOneOf};

use crate::block_copy::BlockCopy;
use crate::numbers::at;
use dd_machine::CopyState;
use std::alloc::{AllocError, Global};
use std::marker::Model;

/// The copies of a space, one cell for each block.
#[derive(Debug, Drop)]
pub struct Row {
    cells: Vec<Option<BlockCopy>>,
}

impl Model for Row {
    ghost use Rattle.std.specs.Prelude.{List, Option};
    ghost use Rattle.dd_copies.specs.declared.block_copy.BlockCopy.{BlockCopy};

    ghost Value = { List (Option BlockCopy) };

    ghost view = { λ r. r.cells.items };
}

/// The copies of all spaces, a row for each.
#[derive(Debug, Drop)]
pub struct Copies {
    rows: Vec<Row>,
}

impl Model for Copies {
    ghost use Rattle.std.specs.Prelude.{List, Option};
    ghost use Rattle.dd_copies.specs.declared.block_copy.BlockCopy.{BlockCopy};

    ghost Value = { List (List (Option BlockCopy)) };

    ghost view = { λ c. c.rows.items };
}

impl Row {
    /// No copy of any of so many blocks.
    fn new(alloc: Global, blocks: u32) -> Result<Row, AllocError>
        ensures { IfOk result (λ row. row ≡ replicate blocks None) }
    {
        let mut cells = Vec::new(alloc);
        for _block in 0..blocks {
            cells.push(None)?;
        }
        Ok(Row { cells })
    }

    /// The copy of a block, where there is one.
    pub fn get(&self, block: u32) -> Option<&BlockCopy>
        ensures { option_map (λ r. r.now) result ≡ or_else None (at_number self.now block) }
    {
        at(self.cells.as_slice(), block)?.as_ref()
    }
}

impl Copies {
    /// No copies, with a cell for each space and block.
    ///
    /// # Errors
    /// Want of memory.
    pub fn new(alloc: Global, spaces: u32, blocks: u32) -> Result<Copies, AllocError>
        ensures table { IfOk result (IsTable spaces blocks) }
        ensures none { IfOk result (λ copies. (s b : ℕ) → copies_of copies s b ≡ None) }
    {
        let mut rows = Vec::new(alloc);
        for _space in 0..spaces {
            rows.push(Row::new(alloc, blocks)?)?;
        }
        Ok(Copies { rows })
    }

    /// The copy of a block in a space, where there is one.
    pub fn get(&self, space: u32, block: u32) -> Option<&BlockCopy>
        ensures { option_map (λ r. r.now) result ≡ cell_of self.now space block }
    {
        at(self.rows.as_slice(), space)?.get(block)
    }

    /// Where the values of a copy are, where there is one.
    #[tactic(auto, unfolding(crate::specs::CopyTables::copies_of))]
    pub fn state(&self, space: u32, block: u32) -> Option<CopyState>
        ensures { result ≡ option_map (λ c. c.state) (copies_of self.now space block) }
    {
        Some(self.get(space, block)?.state)
    }

    /// The version at a place of a copy, or 0 where there is none.
    #[tactic(auto, unfolding(crate::specs::CopyTables::copies_of))]
    pub fn version(&self, space: u32, block: u32, i: u64) -> u32
        ensures { result ≡ slice_index (versions_of (copies_of self.now space block)) i }
    {
        match self.get(space, block) {
            Some(copy) if i < copy.versions.len() => copy.versions.get(i),
            _ => 0,
        }
    }

    /// Whether there is a copy.
    pub fn is_any(&self, space: u32, block: u32) -> bool
        ensures { result ≡ is_in_state is_any (copies_of self.now space block) }
    {
        matches!(self.state(space, block), Some(_))
    }

    /// Whether there is a copy in memory.
    pub fn is_here(&self, space: u32, block: u32) -> bool
        ensures { result ≡ is_in_state is_here (copies_of self.now space block) }
    {
        matches!(self.state(space, block), Some(CopyState::Here))
    }

    /// Whether a copy is on its way out.
    pub fn is_leaving(&self, space: u32, block: u32) -> bool
        ensures { result ≡ is_in_state is_leaving (copies_of self.now space block) }
    {
        matches!(self.state(space, block), Some(CopyState::Leaving))
    }

    /// Whether a copy is in a slot.
    pub fn is_out(&self, space: u32, block: u32) -> bool
        ensures { result ≡ is_in_state is_out (copies_of self.now space block) }
    {
        matches!(self.state(space, block), Some(CopyState::Out))
    }

    /// Whether a copy is on its way into memory.
    pub fn is_coming(&self, space: u32, block: u32) -> bool
        ensures { result ≡ is_in_state is_coming (copies_of self.now space block) }
    {
        matches!(self.state(space, block), Some(CopyState::Coming))
    }

    /// Whether a copy is in memory or in a slot, and stays there.
    pub fn is_idle(&self, space: u32, block: u32) -> bool
        ensures { result ≡ is_in_state is_idle (copies_of self.now space block) }
    {
        matches!(
            self.state(space, block),
            Some(CopyState::Here | CopyState::Out)
        )
    }

    /// Whether the bytes of a copy are in memory, or about to be.
    pub fn is_held(&self, space: u32, block: u32) -> bool
        ensures { result ≡ is_in_state is_held (copies_of self.now space block) }
    {
        matches!(
            self.state(space, block),
            Some(CopyState::Here | CopyState::Leaving | CopyState::Coming)
        )
    }

    /// Whether a copy is in memory, and stays there, or on its way.
    pub fn is_here_or_coming(&self, space: u32, block: u32) -> bool
        ensures { result ≡ is_in_state is_here_or_coming (copies_of self.now space block) }
    {
        matches!(
            self.state(space, block),
            Some(CopyState::Here | CopyState::Coming)
        )
    }

    /// Whether a copy is in memory, or lent to the task.
    pub fn is_here_or_lent(&self, space: u32, block: u32, task: u32) -> bool
        ensures { result ≡ is_in_state (is_here_or_lent task) (copies_of self.now space block) }
    {
        match self.state(space, block) {
            Some(CopyState::Here) => true,
            Some(CopyState::Lent(borrower)) => borrower == task,
            _ => false,
        }
    }

    /// Whether a copy is lent to the task.
    pub fn is_lent_to(&self, space: u32, block: u32, task: u32) -> bool
        ensures { result ≡ is_in_state (is_lent (λ t. nat_eq t task)) (copies_of self.now space block) }
    {
        match self.state(space, block) {
            Some(CopyState::Lent(borrower)) => borrower == task,
            _ => false,
        }
    }

    /// Whom a copy is lent to.
    pub fn lent_to(&self, space: u32, block: u32) -> Option<u32>
        ensures some { IfSome result (λ t. (test : ℕ → Bool) → is_in_state (is_lent test) (copies_of self.now space block) ≡ test t) }
        ensures none { result ≡ None → (test : ℕ → Bool) → is_in_state (is_lent test) (copies_of self.now space block) ≡ false }
    {
        match self.state(space, block) {
            Some(CopyState::Lent(task)) => Some(task),
            _ => None,
        }
    }

    /// Whether there is no copy.
    #[tactic(auto, unfolding(crate::specs::CopyTables::copies_of))]
    pub fn is_absent(&self, space: u32, block: u32) -> bool
        ensures { IsTrue result ↔ (copies_of self.now space block ≡ None) }
    {
        self.get(space, block).is_none()
    }

    /// Puts a copy into its cell, or none.
    fn set(&mut self, space: u32, block: u32, cell: Option<BlockCopy>)
        requires space { IsOneOf (length self.old) space }
        requires block { IsOneOf (length (or_else [] (at_number self.old space))) block }
        ensures { self.new ≡ with_cell self.old space block cell }
    {
        self.rows[space as usize - 1].cells[block as usize - 1] = cell;
    }

    /// Empties a cell.
    fn empty(&mut self, space: u32, block: u32) -> Option<BlockCopy>
        requires space { IsOneOf (length self.old) space }
        requires block { IsOneOf (length (or_else [] (at_number self.old space))) block }
        ensures value { result ≡ cell_of self.old space block }
        ensures rest { self.new ≡ with_cell self.old space block None }
    {
        self.rows[space as usize - 1].cells[block as usize - 1].take()
    }

    /// Takes the copy out of its cell, where there is one.
    pub fn take(&mut self, space: u32, block: u32) -> Option<BlockCopy>
        requires space { IsOneOf (length self.old) space }
        requires block { IsOneOf (length (or_else [] (at_number self.old space))) block }
        ensures value { result ≡ cell_of self.old space block }
        ensures rest { self.new ≡ with_cell self.old space block None }
        ensures left { copies_of self.new ≡ at_copy (copies_of self.old) space block None }
        ensures seen { seen result ≡ copies_of self.old space block }
        ensures table { (spaces blocks : ℕ) → IsTable spaces blocks self.old → IsTable spaces blocks self.new }
    {
        self.empty(space, block)
    }

    /// Puts a copy into its cell, or none, in place of what is there.
    pub fn put(&mut self, space: u32, block: u32, cell: Option<BlockCopy>)
        requires space { IsOneOf (length self.old) space }
        requires block { IsOneOf (length (or_else [] (at_number self.old space))) block }
        ensures cells { self.new ≡ with_cell self.old space block cell }
        ensures value { copies_of self.new ≡ at_copy (copies_of self.old) space block (seen cell) }
        ensures table { (spaces blocks : ℕ) → IsTable spaces blocks self.old → IsTable spaces blocks self.new }
    {
        self.set(space, block, cell);
    }

    /// Puts a copy into another state.
    pub fn set_state(&mut self, space: u32, block: u32, state: CopyState)
        requires space { IsOneOf (length self.old) space }
        requires block { IsOneOf (length (or_else [] (at_number self.old space))) block }
        ensures value { copies_of self.new
            ≡ at_copy (copies_of self.old) space block (in_state state (copies_of self.old space block)) }
        ensures table { (spaces blocks : ℕ) → IsTable spaces blocks self.old → IsTable spaces blocks self.new }
    {
        let cell = in_state(self.take(space, block), state);
        self.put(space, block, cell);
    }

    /// Moves a copy to another space, where it is in memory.
    pub fn move_to(&mut self, from: u32, to: u32, block: u32)
        requires from { IsOneOf (length self.old) from }
        requires to { IsOneOf (length self.old) to }
        requires block { IsOneOf (length (or_else [] (at_number self.old from))) block }
        requires there { IsOneOf (length (or_else [] (at_number self.old to))) block }
        ensures value { copies_of self.new
            ≡ at_copy (at_copy (copies_of self.old) from block None) to block (in_state Here (copies_of self.old from block)) }
        ensures table { (spaces blocks : ℕ) → IsTable spaces blocks self.old → IsTable spaces blocks self.new }
    {
        let cell = in_state(self.take(from, block), CopyState::Here);
        self.put(to, block, cell);
    }

    /// Puts a copy that was lent back: it is in its slot.
    pub fn give_back(&mut self, space: u32, block: u32)
        requires space { IsOneOf (length self.old) space }
        requires block { IsOneOf (length (or_else [] (at_number self.old space))) block }
        ensures value { copies_of self.new
            ≡ at_copy (copies_of self.old) space block (given_back (copies_of self.old space block)) }
        ensures table { (spaces blocks : ℕ) → IsTable spaces blocks self.old → IsTable spaces blocks self.new }
    {
        let cell = given_back(self.take(space, block));
        self.put(space, block, cell);
    }
}

/// A copy in another state.
fn in_state(cell: Option<BlockCopy>, state: CopyState) -> Option<BlockCopy>
    ensures { seen result ≡ in_state state (seen cell) }
{
    let copy = cell?;
    Some(BlockCopy {
        state,
        versions: copy.versions,
    })
}

/// A copy that is in its slot where it was lent.
fn given_back(cell: Option<BlockCopy>) -> Option<BlockCopy>
    ensures { seen result ≡ given_back (seen cell) }
{
    let copy = cell?;
    Some(BlockCopy {
        state: not_lent(copy.state),
        versions: copy.versions,
    })
}

/// Out where it was lent.
fn not_lent(state: CopyState) -> CopyState
    ensures { result ≡ not_lent state }
{
    match state {
        CopyState::Lent(_) => CopyState::Out,
        other => other,
    }
}
