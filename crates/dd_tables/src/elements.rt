//! Elements, and the tasks that use them.
ghost use Rattle.std.specs.Prelude.{◌≡◌, ◌<◌, All, length};
ghost use Rattle.dd_blocks.specs.declared.access_row.AccessRow.{AccessRow};
ghost use Rattle.dd_blocks.specs.Elements.{reads, writes};
ghost use Rattle.dd_blocks.specs.Grids.{element_count};
ghost use Rattle.dd_blocks.specs.PlanElements.{number_of};
ghost use Rattle.dd_blocks.specs.Numbered.{array_row, block_row};
ghost use Rattle.dd_blocks.specs.WellFormed.{IsWellFormed};
ghost use Rattle.dd_tables.specs.Currents.{current_of};
ghost use Rattle.dd_tables.specs.Places.{IsPlace};
ghost use Rattle.dd_blocks.specs.Layout.{elements_in};
ghost use Rattle.dd_machine.specs.Words.{IsOneOf, element};
ghost use Rattle.dd_blocks.specs.Elements.{has, task_reads, task_writes};
ghost use Rattle.dd_views.specs.Views.{IsView};

use dd_blocks::{AccessRow, Plan, TaskRow};
use dd_spans::RunMap;

/// The element at a position of an array.
#[derive(Clone, Copy, Debug)]
pub struct Element {
    pub array: u32,
    pub pos: u64,
}

impl Element {
    /// The element at a place of a block.
    #[tactic(auto, unfolding(dd_machine::specs::Words::element))]
    pub fn at(plan: &Plan, block: u32, i: u64) -> Element
        requires well { IsWellFormed plan.now }
        requires place { IsPlace plan.now block i }
        ensures value { element plan.now block i ≡ record { array = result.array; pos = result.pos } }
        ensures number { IsOneOf (length plan.now.arrays) result.array }
        ensures within { result.pos < element_count (array_row plan.now result.array).grid }
    {
        let array = plan.block(block).array;
        let row = plan.array(array);
        let within = u64::from(block - row.first_block);
        Element {
            array,
            pos: row.grid.pos_of(within, i),
        }
    }

    /// Its number among those of all arrays.
    pub fn number(&self, plan: &Plan) -> u64
        requires well { IsWellFormed plan.now }
        requires array { IsOneOf (length plan.now.arrays) self.now.array }
        requires within { self.now.pos < element_count (array_row plan.now self.now.array).grid }
        ensures value { result ≡ number_of plan.now (record { array = self.now.array; pos = self.now.pos }) }
        ensures within { result < elements_in plan.now.arrays }
    {
        plan.array(self.array).first_element + self.pos
    }

    /// Whether an access has it.
    fn is_in(&self, access: &AccessRow) -> bool
        requires { IsView access.now.view }
        ensures { result ≡ has access.now (record { array = self.now.array; pos = self.now.pos }) }
    {
        access.view.array == self.array && access.view.has(self.pos)
    }

    /// Whether a task reads it.
    pub fn is_read_by(&self, task: &TaskRow) -> bool
        requires { All (λ (a : AccessRow). IsView a.view) task.now.accesses }
        ensures { result ≡ task_reads task.now (record { array = self.now.array; pos = self.now.pos }) }
    {
        for access in task.accesses.as_slice() {
            if access.reads() && self.is_in(access) {
                return true;
            }
        }
        false
    }

    /// Whether a task writes it.
    pub fn is_written_by(&self, task: &TaskRow) -> bool
        requires { All (λ (a : AccessRow). IsView a.view) task.now.accesses }
        ensures { result ≡ task_writes task.now (record { array = self.now.array; pos = self.now.pos }) }
    {
        for access in task.accesses.as_slice() {
            if access.writes() && self.is_in(access) {
                return true;
            }
        }
        false
    }
}
