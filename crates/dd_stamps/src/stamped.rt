ghost use Rattle.std.specs.Prelude.{◌≡◌, true, ◌&&◌, ◌+◌, ◌*◌, ◌<◌, ◌≤◌, ℕ, pos, length, replicate, IfOk, OnOk};
ghost use Rattle.std.specs.Coded.{→_prop};
ghost use Rattle.dd_views.specs.IndexList.{index_list};
ghost use Rattle.dd_views.specs.Views.{IsViewOf};
ghost use Rattle.dd_blocks.specs.Numbered.{IsNumberIn, array_row, task_row};
ghost use Rattle.dd_blocks.specs.PlanElements.{element_of};
ghost use Rattle.dd_blocks.specs.Tasks.{shape_in};
ghost use Rattle.dd_meaning.specs.Lists.{lists_of};
ghost use Rattle.dd_stamps.specs.Gathered.{GathersFrom};
ghost use Rattle.dd_stamps.specs.Stored.{HoldsNumber, HoldsOutputs};
ghost use Rattle.std.specs.List.{All};
ghost use Rattle.dd_blocks.specs.WellFormed.{IsWellFormed};
ghost use Rattle.dd_stamps.specs.Cells.{blank};
ghost use Rattle.dd_stamps.specs.Taken.{HasTaken};
ghost use Rattle.dd_stamps.specs.Cells.{AreTrue, AreTrue-prop};
ghost use Rattle.dd_stamps.specs.Cells.{size_of};

use crate::fill::filled_block;
use crate::gathering::gather;
use crate::places::take_places;
use crate::rows::{array_with, block_row, task_row};
use crate::storing::store_all;
use crate::work::{Stage, Work};
use dd_blocks::Plan;
use dd_mark::{Mark, Told};
use dd_spans::{RunMap, Runs};
use dd_views::View;
use std::alloc::{AllocError, Global};
use std::snapshot::Snapshot;

/// A copy of a block: its values, each with its version.
#[derive(Drop)]
pub struct Stamped<'p> {
    pub(crate) plan: &'p Plan,
    pub(crate) block: u32,
    pub(crate) versions: RunMap,
    pub(crate) values: Vec<i64>,
    pub(crate) told: Told,
    ghost known: { IsNumberIn plan.now.blocks block },
    ghost stamps: { length versions.list ≡ size_of plan.now block },
    ghost full: { length values.items ≡ size_of plan.now block },
    ghost cells: { told.mark ≡ true → AreTrue plan.now block versions.list values.items } by { →_prop (AreTrue-prop plan.now block versions.list values.items) },
}

impl<'p> Stamped<'p> {
    ghost use Rattle.dd_stamps.specs.Copies.{IsOfSameBlock, written_places};
    ghost use Rattle.dd_stamps.specs.declared.work.Stage.{Stage};

    /// The Plan that it is of.
    pub fn plan(&self) -> &'p Plan
        ensures { result ≡ self.now.plan }
    {
        self.plan
    }

    /// The number of its block.
    pub fn block(&self) -> u32
        ensures { result ≡ self.now.block }
    {
        self.block
    }

    /// The version of each place; a blank is 4294967295.
    pub fn versions(&self) -> &RunMap
        ensures { result.now ≡ self.now.versions }
    {
        &self.versions
    }

    /// Some places take the other copy's versions and values, and the others stay. It takes no memory.
    pub fn take_from(&mut self, other: &Stamped<'p>, places: &Runs)
        requires plan { other.now.plan ≡ self.old.plan }
        requires block { other.now.block ≡ self.old.block }
        requires places { All (λ p. p < size_of self.old.plan.now self.old.block) places.now.list }
        requires spare { 2 * length places.now.list ≤ self.old.versions.spare }
        ensures kept { IsOfSameBlock self.old self.new }
        ensures told { self.new.told.mark ≡ (self.old.told.mark && other.now.told.mark) }
        ensures versions { HasTaken 0 places.now.list self.old.versions.list other.now.versions.list self.new.versions.list }
        ensures values { HasTaken (pos 0) places.now.list self.old.values.items other.now.values.items self.new.values.items }
        ensures spare { self.old.versions.spare ≤ self.new.versions.spare + 2 * length places.now.list }
    {
        take_places(
            &mut self.versions,
            &mut self.values,
            &other.versions,
            &other.values,
            places,
        );
        self.told = Told::both(&self.told, &other.told);
    }

    /// Puts the values of the elements of a view that are in this block at their places in a buffer, which is as long as the view.
    /// The rest of the buffer stays. It takes no memory.
    pub fn gather(&self, view: &View, into: &mut [i64])
        requires well { IsWellFormed self.now.plan.now }
        requires named { IsNumberIn self.now.plan.now.arrays view.now.array }
        requires view { IsViewOf (shape_in (array_row self.now.plan.now view.now.array)) view.now }
        requires long { length into.old ≡ length (index_list view.now) }
        ensures { GathersFrom self.now.plan.now self.now.block self.now.values.items view.now into.old into.new }
    {
        let array = array_with(self.plan, self.block);
        if view.array == block_row(self.plan, self.block).array {
            let block = u64::from(self.block - array.first_block);
            gather(&array.grid, block, &self.values, view, into);
        }
    }

    /// The elements of this block that a task writes take what it made and its number: a later access wins. It takes no memory.
    pub fn store_outputs(&mut self, work: &Work<'p>)
        requires well { IsWellFormed self.old.plan.now }
        requires plan { work.now.plan ≡ self.old.plan }
        requires ran { work.now.stage ≡ Stage.Ran }
        requires spare { 2 * written_places self.old.plan.now work.now.task self.old.block ≤ self.old.versions.spare }
        ensures kept { IsOfSameBlock self.old self.new }
        ensures told { self.new.told.mark ≡ (self.old.told.mark && work.now.told.mark) }
        ensures values { HoldsOutputs (task_row self.old.plan.now work.now.task).accesses (lists_of work.now.args.bufs.items) (element_of self.old.plan.now self.old.block)
            (size_of self.old.plan.now self.old.block) self.old.values.items self.new.values.items }
        ensures versions { HoldsNumber (task_row self.old.plan.now work.now.task).accesses (element_of self.old.plan.now self.old.block)
            (size_of self.old.plan.now self.old.block) work.now.task self.old.versions.list self.new.versions.list }
        ensures spare { self.old.versions.spare ≤ self.new.versions.spare + 2 * written_places self.old.plan.now work.now.task self.old.block }
    {
        let array = array_with(self.plan, self.block);
        let number = block_row(self.plan, self.block).array;
        let block = u64::from(self.block - array.first_block);
        let accesses = task_row(self.plan, work.task).accesses.as_slice();
        store_all(
            &array.grid,
            block,
            number,
            accesses,
            &work.args.bufs,
            work.task,
            &mut self.values,
            &mut self.versions,
        );
        self.told = Told::both(&self.told, &work.told);
    }

    /// Makes the spare of the versions at least so many runs.
    ///
    /// # Errors
    /// Want of memory. All stays as it was, and the spare is no smaller.
    pub fn reserve(&mut self, runs: u64) -> Result<(), AllocError>
        ensures ok { OnOk result (runs ≤ self.new.versions.spare) }
        ensures kept { IsOfSameBlock self.old self.new }
        ensures versions { self.new.versions.list ≡ self.old.versions.list }
        ensures values { self.new.values.items ≡ self.old.values.items }
        ensures told { self.new.told.mark ≡ self.old.told.mark }
        ensures spare { self.old.versions.spare ≤ self.new.versions.spare }
    {
        self.versions.reserve(runs)
    }

    /// Its mark.
    pub fn told(&self) -> Told
        ensures { result.mark ≡ self.now.told.mark }
    {
        Told::same(&self.told)
    }

    /// Its values, as clauses see them.
    pub fn snapshot(&self) -> Snapshot<Vec<i64>>
        ensures { result.value ≡ self.now.values }
    {
        Snapshot::of(&self.values)
    }

    /// Its versions, where the values are of no use any more.
    pub fn into_versions(self) -> RunMap
        ensures { result ≡ self.entry.versions }
    {
        let Stamped {
            plan: _,
            block: _,
            versions,
            values: _,
            told: _,
        } = self;
        versions
    }

    /// The value of each place.
    pub fn values(&self) -> &[i64]
        ensures { result.now ≡ self.now.values.items }
    {
        &self.values
    }
}

/// The copy with these versions and values. Its mark is what the call picks.
///
/// # Errors
/// Want of memory.
pub fn restored<'p, M: Mark>(
    plan: &'p Plan,
    block: u32,
    versions: &RunMap,
    values: Vec<i64>,
) -> Result<Stamped<'p>, AllocError>
    requires known { IsNumberIn plan.now.blocks block }
    requires stamps { length versions.now.list ≡ size_of plan.now block }
    requires full { length values.items ≡ size_of plan.now block }
    requires cells { M.told ≡ true → AreTrue plan.now block versions.now.list values.items }
    ensures plan { IfOk result (λ c. c.plan ≡ plan.entry) }
    ensures block { IfOk result (λ c. c.block ≡ block) }
    ensures versions { IfOk result (λ c. c.versions.list ≡ versions.now.list) }
    ensures values { IfOk result (λ c. c.values.items ≡ values.items) }
    ensures told { IfOk result (λ c. c.told.mark ≡ M.told) }
{
    Ok(Stamped {
        plan,
        block,
        versions: versions.duplicate()?,
        values,
        told: Told::picked::<M>(),
    })
}

/// A copy with what the array holds at first: all versions are 0.
///
/// # Errors
/// Want of memory.
pub fn fresh_fill<'p>(alloc: Global, plan: &'p Plan, block: u32) -> Result<Stamped<'p>, AllocError>
    requires well { IsWellFormed plan.now }
    requires known { IsNumberIn plan.now.blocks block }
    ensures plan { IfOk result (λ c. c.plan ≡ plan.entry) }
    ensures block { IfOk result (λ c. c.block ≡ block) }
    ensures versions { IfOk result (λ c. c.versions.list ≡ replicate (size_of plan.now block) 0) }
    ensures told { IfOk result (λ c. c.told.mark ≡ true) }
{
    let array = array_with(plan, block);
    let values = filled_block(alloc, &array, u64::from(block - array.first_block))?;
    let versions = RunMap::new(alloc, values.len() as u64, 0)?;
    Ok(Stamped {
        plan,
        block,
        versions,
        values,
        told: Told::yes(),
    })
}

/// What the version of a cell is whose value says nothing.
const BLANK: u32 = 4294967295;

/// A copy that says nothing.
///
/// # Errors
/// Want of memory.
pub fn blank<'p>(alloc: Global, plan: &'p Plan, block: u32) -> Result<Stamped<'p>, AllocError>
    requires known { IsNumberIn plan.now.blocks block }
    ensures plan { IfOk result (λ c. c.plan ≡ plan.entry) }
    ensures block { IfOk result (λ c. c.block ≡ block) }
    ensures versions { IfOk result (λ c. c.versions.list ≡ replicate (size_of plan.now block) blank) }
    ensures told { IfOk result (λ c. c.told.mark ≡ true) }
{
    let size = block_row(plan, block).size;
    let versions = RunMap::new(alloc, u64::from(size), BLANK)?;
    let values = vec![in alloc; 0; size as usize]?;
    Ok(Stamped {
        plan,
        block,
        versions,
        values,
        told: Told::yes(),
    })
}
