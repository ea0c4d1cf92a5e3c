ghost use Rattle.std.specs.Prelude.{◌≡◌, ◌+◌, ◌≤◌, length};
ghost use Rattle.dd_blocks.specs.Homes.{home_after};

use crate::array_row::ArrayRow;
use crate::block_row::BlockRow;
use crate::policy::Policy;
use crate::proc_row::ProcRow;
use crate::rule::Rule;
use crate::space_row::SpaceRow;
use crate::statement_row::StatementRow;
use crate::task_row::TaskRow;
use dd_views::Items;

/// A script, as everything below its reader sees it. The rows of each list are numbered from 1.
#[derive(Debug, Drop)]
pub struct Plan {
    pub spaces: Items<SpaceRow>,
    pub procs: Items<ProcRow>,
    pub policy: Policy,
    pub rule: Rule,
    pub arrays: Items<ArrayRow>,
    /// The blocks of all arrays, in the order of the arrays.
    pub blocks: Items<BlockRow>,
    /// The tasks of all regions, in the order of the script.
    pub tasks: Items<TaskRow>,
    pub statements: Items<StatementRow>,
}

impl Plan {
    ghost use Rattle.dd_blocks.specs.Homes.{home_before};
    ghost use Rattle.dd_blocks.specs.Numbered.{IsNumberIn, array_row, block_row, proc_row, space_row, statement_row, task_row};

    /// The row of a space, by its number.
    #[tactic(auto, using(crate::proofs::NumberedLemmas::row_at))]
    pub fn space(&self, number: u32) -> &SpaceRow
        requires { IsNumberIn self.now.spaces number }
        ensures { result.now ≡ space_row self.now number }
    {
        &self.spaces.as_slice()[number as usize - 1]
    }

    /// The row of a processor, by its number.
    #[tactic(auto, using(crate::proofs::NumberedLemmas::row_at))]
    pub fn proc(&self, number: u32) -> &ProcRow
        requires { IsNumberIn self.now.procs number }
        ensures { result.now ≡ proc_row self.now number }
    {
        &self.procs.as_slice()[number as usize - 1]
    }

    /// The row of an array, by its number.
    #[tactic(auto, using(crate::proofs::NumberedLemmas::row_at))]
    pub fn array(&self, number: u32) -> &ArrayRow
        requires { IsNumberIn self.now.arrays number }
        ensures { result.now ≡ array_row self.now number }
    {
        &self.arrays.as_slice()[number as usize - 1]
    }

    /// The row of a block, by its number.
    #[tactic(auto, using(crate::proofs::NumberedLemmas::row_at))]
    pub fn block(&self, number: u32) -> &BlockRow
        requires { IsNumberIn self.now.blocks number }
        ensures { result.now ≡ block_row self.now number }
    {
        &self.blocks.as_slice()[number as usize - 1]
    }

    /// The row of a task, by its number.
    #[tactic(auto, using(crate::proofs::NumberedLemmas::row_at))]
    pub fn task(&self, number: u32) -> &TaskRow
        requires { IsNumberIn self.now.tasks number }
        ensures { result.now ≡ task_row self.now number }
    {
        &self.tasks.as_slice()[number as usize - 1]
    }

    /// The row of a statement, by its number.
    #[tactic(auto, using(crate::proofs::NumberedLemmas::row_at))]
    pub fn statement(&self, number: u32) -> &StatementRow
        requires { IsNumberIn self.now.statements number }
        ensures { result.now ≡ statement_row self.now number }
    {
        &self.statements.as_slice()[number as usize - 1]
    }

    /// The home of a block when a row of the statements begins: the space to which the last row above it moved
    /// the block's array, or else the block's first home. The row may be the one that comes next.
    pub fn home_before(&self, row: u32, block: u32) -> u32
        requires row { (1 ≤ row) × (row ≤ length self.now.statements + 1) }
        requires block { (1 ≤ block) × (block ≤ length self.now.blocks) }
        ensures { result ≡ home_before self.now row block }
    {
        let found = self.blocks.as_slice()[block as usize - 1];
        let above = &self.statements.as_slice()[..row as usize - 1];
        home_after(above, found.array, found.home)
    }
}

/// The home of an array's blocks after some rows, by their home before these.
fn home_after(rows: &[StatementRow], array: u32, before: u32) -> u32
    ensures { result ≡ home_after array before rows.now }
{
    let mut home = before;
    for row in rows {
        home = row.what.moves(array).unwrap_or(home);
    }
    home
}
