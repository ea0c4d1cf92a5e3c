//! The processor that a task gets.
ghost use Rattle.std.specs.Prelude.{◌≡◌, ◌+◌, ◌%◌, ◌<◌, ◌≤◌, ◌^◌, ℕ, All, length};
ghost use Rattle.dd_blocks.specs.ArrayHomes.{AreMovedTo, rows_above};
ghost use Rattle.dd_blocks.specs.Homes.{home_in_region};
ghost use Rattle.dd_blocks.specs.Numbered.{IsNumberIn};
ghost use Rattle.dd_blocks.specs.WellFormed.{NamesRows};
ghost use Rattle.dd_place.specs.Leading.{space_for};
ghost use Rattle.dd_place.specs.Placement.{IsPlaced};
ghost use Rattle.dd_blocks.specs.OfPlan.{IsOfPlan};
ghost use Rattle.dd_place.specs.Premises.{CanPlace};

use crate::leading::leading_block;
use crate::load::least_loaded_for;
use crate::region::row_of_region;
use dd_blocks::{Plan, Rule, TaskRow};

/// The number, from 1, of the processor that a task gets. It takes no memory.
///
/// `earlier` has the processors of the tasks above it in its region. The region of the task is one that a row of the
/// Plan runs, or the next one. The Plan has all rows above the region; those below it don't count.
pub fn place(plan: &Plan, earlier: &[u32], task: &TaskRow) -> u32
    requires plan { CanPlace plan.now }
    requires accesses { All (IsOfPlan plan.now) task.now.accesses }
    ensures placed { IsPlaced plan.now earlier.now task.now result }
    ensures number { IsNumberIn plan.now.procs result }
{
    match plan.rule {
        Rule::Rr => turn(plan.procs.as_slice().len(), earlier.len()),
        Rule::Home => least_loaded_for(plan, space_for(plan, task), earlier),
    }
}

/// The number, from 1, of the processor that a task gets, as [`place`] gives it. It looks at no statement, and takes no
/// memory.
///
/// `homes` has for each array the space to which the last row above the task's region moved it, or 0.
pub fn place_by(plan: &Plan, homes: &[u32], earlier: &[u32], task: &TaskRow) -> u32
    requires plan { CanPlace plan.now }
    requires names { NamesRows plan.now }
    requires homes { AreMovedTo (length plan.now.arrays) (rows_above plan.now task.now.region) homes.now }
    requires accesses { All (IsOfPlan plan.now) task.now.accesses }
    ensures placed { IsPlaced plan.now earlier.now task.now result }
    ensures number { IsNumberIn plan.now.procs result }
{
    match plan.rule {
        Rule::Rr => turn(plan.procs.as_slice().len(), earlier.len()),
        Rule::Home => least_loaded_for(plan, space_by(plan, homes, task), earlier),
    }
}

/// The processor whose turn it is after some tasks.
fn turn(procs: usize, earlier: usize) -> u32
    requires some { 1 ≤ procs }
    requires few { procs < 2 ^ 32 }
    ensures value { result ≡ earlier % procs + 1 }
    ensures within { result ≤ procs }
{
    (earlier % procs) as u32 + 1
}

/// The space by which a task finds its processor.
fn space_for(plan: &Plan, task: &TaskRow) -> u32
    requires plan { CanPlace plan.now }
    requires accesses { All (IsOfPlan plan.now) task.now.accesses }
    ensures { result ≡ space_for plan.now task.now }
{
    let Some(block) = leading_block(plan, task.accesses.as_slice()) else {
        return 1;
    };
    let row = row_of_region(plan.statements.as_slice(), task.region);
    plan.home_before(row, block)
}

/// The same where the homes are known.
fn space_by(plan: &Plan, homes: &[u32], task: &TaskRow) -> u32
    requires plan { CanPlace plan.now }
    requires names { NamesRows plan.now }
    requires homes { AreMovedTo (length plan.now.arrays) (rows_above plan.now task.now.region) homes.now }
    requires accesses { All (IsOfPlan plan.now) task.now.accesses }
    ensures { result ≡ space_for plan.now task.now }
{
    let Some(block) = leading_block(plan, task.accesses.as_slice()) else {
        return 1;
    };
    home_by(plan, homes, block)
}

/// The home of a block where those of the arrays are known.
#[tactic(auto, using(crate::proofs::HomesLemmas::block_names))]
fn home_by(plan: &Plan, homes: &[u32], block: u32) -> u32
    requires names { NamesRows plan.now }
    requires homes { length homes.now ≡ length plan.now.arrays }
    requires block { IsNumberIn plan.now.blocks block }
    ensures { (region : ℕ) → AreMovedTo (length plan.now.arrays) (rows_above plan.now region) homes.now → result ≡ home_in_region plan.now region block }
{
    let found = plan.block(block);
    let moved_to = homes[found.array as usize - 1];
    if moved_to == 0 { found.home } else { moved_to }
}
