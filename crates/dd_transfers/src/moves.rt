//! What the regions of a script move, from row to row.
ghost use Rattle.std.specs.Prelude.{◌≡◌, ◌+◌, ◌^◌, ◌<◌, ◌≤◌, IfOk, drop, length};
ghost use Rattle.dd_blocks.specs.Layout.{elements_in};
ghost use Rattle.dd_blocks.specs.Lives.{tasks_of};
ghost use Rattle.dd_blocks.specs.WellFormed.{IsWellFormed};
ghost use Rattle.dd_meaning.specs.Moves.{moved};
ghost use Rattle.dd_blocks.specs.ArrayHomes.{HasArray, homes_after};
ghost use Rattle.dd_transfers.specs.Rest.{NoneAsks};

use crate::walk::visit_region;
use dd_blocks::{Plan, StatementRow, TaskRow, What};
use std::alloc::{AllocError, Global};

/// The marks of all elements, and where arrays were moved.
#[derive(Debug, Drop)]
pub struct Moves {
    /// How many rows there are up to the last that prints what was moved: only what is moved above it is counted.
    asked: usize,
    /// By the number of the element among those of all arrays, from 0.
    marks: Vec<u8>,
    /// For each array, the space to which the last of the rows so far moved it, by its number from 1, or 0.
    homes: Vec<u32>,
}

impl Moves {
    ghost use Rattle.dd_transfers.specs.Rest.{IsAtRest};
    ghost use Rattle.dd_meaning.specs.RegionRows.{RunsAt, next_region};

    /// Marks for the elements of a Plan, above its first row.
    pub fn new(alloc: Global, plan: &Plan) -> Result<Moves, AllocError>
        requires { IsWellFormed plan.now }
        ensures { IfOk result (IsAtRest plan.now 0) }
    {
        let asked = rows_asked(plan.statements.as_slice());
        let marks = vec![in alloc; 0; marks_wanted(plan, asked)]?;
        let homes = vec![in alloc; 0; plan.arrays.as_slice().len()]?;
        Ok(Moves {
            asked,
            marks,
            homes,
        })
    }

    /// How many elements the tasks of a region move, that the row with `i` rows above it runs. Where nothing asks for
    /// it, it may be 0.
    pub fn in_region(&mut self, plan: &Plan, i: usize, tasks: &[TaskRow]) -> u64
        requires well { IsWellFormed plan.now }
        requires row { RunsAt plan.now i (next_region plan.now i) }
        requires tasks { tasks.now ≡ tasks_of plan.now (next_region plan.now i) }
        requires rest { IsAtRest plan.now i self.old }
        ensures value { i < self.old.asked → result ≡ moved plan.now (next_region plan.now i) }
        ensures few { result ≤ 2 ^ 28 }
        ensures asked { self.new.asked ≡ self.old.asked }
        ensures rest { IsAtRest plan.now (i + 1) self.new }
    {
        if i >= self.asked {
            return 0;
        }
        if plan.spaces.as_slice().len() == 1 {
            return 0;
        }
        visit_region(&mut self.marks, plan, &self.homes, tasks)
    }

    /// Takes note of where a statement moves an array, if it does.
    pub fn follow(&mut self, what: &What)
        requires { HasArray (length self.old.homes.items) what.now }
        ensures homes { self.new.homes.items ≡ homes_after self.old.homes.items what.now }
        ensures marks { self.new.marks.items ≡ self.old.marks.items }
        ensures asked { self.new.asked ≡ self.old.asked }
    {
        what.move_home(&mut self.homes);
    }
}

/// How many rows there are up to the last that prints what was moved, or 0.
fn rows_asked(rows: &[StatementRow]) -> usize
    ensures { NoneAsks (drop result rows.now) }
{
    for i in (0..rows.len()).rev() {
        if matches!(rows[i].what, What::Moved) {
            return i + 1;
        }
    }
    0
}

/// How many marks a run needs: none, where it counts nothing.
fn marks_wanted(plan: &Plan, asked: usize) -> usize
    requires { IsWellFormed plan.now }
    ensures { 1 < length plan.now.spaces → 0 < asked → result ≡ elements_in plan.now.arrays }
{
    if asked == 0 {
        return 0;
    }
    if plan.spaces.as_slice().len() == 1 {
        return 0;
    }
    elements_in(plan)
}

/// How many elements all arrays have.
fn elements_in(plan: &Plan) -> usize
    requires { IsWellFormed plan.now }
    ensures { result ≡ elements_in plan.now.arrays }
{
    match plan.arrays.as_slice().last() {
        Some(array) => {
            array.first_element as usize + array.grid.rows as usize * array.grid.cols as usize
        }
        None => 0,
    }
}
