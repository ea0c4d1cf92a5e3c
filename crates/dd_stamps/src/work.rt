ghost use Rattle.std.specs.Prelude.{◌≡◌, ◌≢◌, ◌-◌, ◌^◌, ◌<◌, [], true, ◌&&◌, not, ◌==◌, ℕ, map, length, IfOk, slice_index, Contains};
ghost use Rattle.std.specs.List.{All, filter};
ghost use Rattle.std.specs.Coded.{Coded-set, coded_list, coded_ℕ, coded_ℤ, →_prop};
ghost use Rattle.dd_kernels.specs.Agreement.{AgreeWhereRead};
ghost use Rattle.dd_kernels.specs.Shapes.{HaveShapes, size_of as elements_in};
ghost use Rattle.dd_kernels.specs.Table.{results};
ghost use Rattle.dd_blocks.specs.Elements.{task_reads};
ghost use Rattle.dd_blocks.specs.Numbered.{IsNumberIn, task_row};
ghost use Rattle.dd_blocks.specs.PlanElements.{element_of};
ghost use Rattle.dd_blocks.specs.Tasks.{shapes_in};
ghost use Rattle.dd_blocks.specs.WellFormed.{IsWellFormed};
ghost use Rattle.dd_meaning.specs.Lists.{lists_of};
ghost use Rattle.dd_meaning.specs.Values.{inputs_of, outputs_of};
ghost use Rattle.dd_meaning.specs.Versions.{needed_version};
ghost use Rattle.dd_stamps.specs.Cells.{size_of};
ghost use Rattle.dd_stamps.specs.Found.{HaveCollected, HaveFound};
ghost use Rattle.dd_stamps.specs.Shaped.{shape_code};
ghost use Rattle.dd_stamps.specs.declared.work.Stage.TheVariants.{Begun, Collecting, Ran};

use crate::collecting::{buffers, gather_all};
use crate::rows::task_row;
use crate::stamped::Stamped;
use dd_blocks::Plan;
use dd_kernels::Args;
use dd_mark::Told;
use std::alloc::{AllocError, Global};
use std::mem::replace;
use std::snapshot::Snapshot;

/// How far a work is.
#[derive(Clone, Copy, Debug, PartialEq, Eq)]
pub enum Stage {
    /// Values are collected.
    Collecting,
    /// The kernel has the buffers.
    Begun,
    /// The kernel was run.
    Ran,
}

/// A task that was handed out, with one buffer for each of its accesses. The buffers are filled from copies of the blocks that
/// the task touches, lent to the kernel, and stored back into such copies.
#[derive(Drop)]
pub struct Work<'p> {
    pub(crate) plan: &'p Plan,
    pub(crate) task: u32,
    pub(crate) worker: u32,
    pub(crate) number: u64,
    pub(crate) picked: bool,
    pub(crate) stage: Stage,
    pub(crate) told: Told,
    /// The blocks that are to be collected.
    pub(crate) left: Vec<u32>,
    pub(crate) args: Args,
    /// What the kernel was given.
    pub(crate) given: Snapshot<Vec<Vec<i64>>>,
    ghost known: { IsNumberIn plan.now.tasks task },
    ghost shaped: { stage ≡ Collecting → args.shapes.items ≡ shapes_in (task_row plan.now task).accesses } by { →_prop (Coded-set (coded_list shape_code) args.shapes.items (shapes_in (task_row plan.now task).accesses)) },
    ghost filled: { stage ≢ Begun → map length (lists_of args.bufs.items) ≡ map elements_in (shapes_in (task_row plan.now task).accesses) } by { →_prop (Coded-set (coded_list coded_ℕ) (map length (lists_of args.bufs.items)) (map elements_in (shapes_in (task_row plan.now task).accesses))) },
    ghost found: { ∥ (told.mark ≡ true → stage ≡ Collecting → HaveFound plan.now (task - 1) left.items (task_row plan.now task).accesses (lists_of args.bufs.items)) ∥₁ },
    ghost inputs: { ∥ (told.mark ≡ true → stage ≡ Begun → AgreeWhereRead (task_row plan.now task).kernel (lists_of given.value.items) (inputs_of plan.now task)) ∥₁ },
    ghost outputs: { told.mark ≡ true → stage ≡ Ran → lists_of args.bufs.items ≡ outputs_of plan.now task } by { →_prop (→_prop (Coded-set (coded_list (coded_list coded_ℤ)) (lists_of args.bufs.items) (outputs_of plan.now task))) },
}

impl<'p> Work<'p> {
    ghost use Rattle.dd_stamps.specs.Works.{IsSameWork};

    /// A task that a worker takes, by the number of the journal's entry that hands it out. It keeps what is said of a Pick. All
    /// blocks that the task touches are left to collect.
    ///
    /// # Errors
    /// Want of memory.
    pub fn new(
        alloc: Global,
        plan: &'p Plan,
        task: u32,
        worker: u32,
        number: u64,
        picked: bool,
    ) -> Result<Work<'p>, AllocError>
        requires well { IsWellFormed plan.now }
        requires known { IsNumberIn plan.now.tasks task }
        ensures plan { IfOk result (λ w. w.plan ≡ plan.entry) }
        ensures task { IfOk result (λ w. w.task ≡ task) }
        ensures worker { IfOk result (λ w. w.worker ≡ worker) }
        ensures number { IfOk result (λ w. w.number ≡ number) }
        ensures picked { IfOk result (λ w. w.picked ≡ picked) }
        ensures stage { IfOk result (λ w. w.stage ≡ Collecting) }
        ensures left { IfOk result (λ w. w.left.items ≡ (task_row plan.now task).blocks) }
        ensures told { IfOk result (λ w. w.told.mark ≡ true) }
    {
        let row = task_row(plan, task);
        let args = buffers(alloc, row.accesses.as_slice())?;
        let given = Snapshot::of(&args.bufs);
        Ok(Work {
            plan,
            task,
            worker,
            number,
            picked,
            stage: Stage::Collecting,
            told: Told::yes(),
            left: row.blocks.as_slice().to_vec(alloc)?,
            args,
            given,
        })
    }

    /// Fills the places of a block in the buffers that the task reads, from a copy that has the versions that the task finds. It
    /// takes no memory.
    pub fn collect(&mut self, copy: &Stamped<'p>)
        requires well { IsWellFormed self.old.plan.now }
        requires plan { copy.now.plan ≡ self.old.plan }
        requires stage { self.old.stage ≡ Collecting }
        requires left { Contains self.old.left.items copy.now.block }
        requires needed { (p : ℕ) → p < size_of self.old.plan.now copy.now.block
            → task_reads (task_row self.old.plan.now self.old.task) (element_of self.old.plan.now copy.now.block p) ≡ true
            → slice_index copy.now.versions.list p ≡ needed_version self.old.plan.now (element_of self.old.plan.now copy.now.block p) self.old.task }
        ensures left { self.new.left.items ≡ filter (λ b. not (b == copy.now.block)) self.old.left.items }
        ensures bufs { HaveCollected self.old.plan.now copy.now.block copy.now.values.items (task_row self.old.plan.now self.old.task).accesses
            (lists_of self.old.args.bufs.items) (lists_of self.new.args.bufs.items) }
        ensures told { self.new.told.mark ≡ (self.old.told.mark && copy.now.told.mark) }
        ensures stage { self.new.stage ≡ Collecting }
        ensures same { IsSameWork self.old self.new }
    {
        let row = task_row(self.plan, self.task);
        gather_all(copy, row.accesses.as_slice(), &mut self.args.bufs);
        let block = copy.block;
        self.left.retain(|b| *b != block);
        self.told = Told::both(&self.told, &copy.told);
    }

    /// The blocks that are to be collected.
    pub fn left(&self) -> &[u32]
        ensures { result.now ≡ self.now.left.items }
    {
        &self.left
    }

    /// Hands out the buffers to the kernel, once all blocks were collected. It takes no memory.
    pub fn begin(&mut self) -> Args
        requires well { IsWellFormed self.old.plan.now }
        requires stage { self.old.stage ≡ Collecting }
        requires all { self.old.left.items ≡ [] }
        ensures shapes { result.shapes.items ≡ shapes_in (task_row self.old.plan.now self.old.task).accesses }
        ensures bufs { result.bufs.items ≡ self.old.args.bufs.items }
        ensures filled { HaveShapes (shapes_in (task_row self.old.plan.now self.old.task).accesses) (lists_of result.bufs.items) }
        ensures given { self.new.given.value.items ≡ self.old.args.bufs.items }
        ensures stage { self.new.stage ≡ Begun }
        ensures told { self.new.told.mark ≡ self.old.told.mark }
        ensures same { IsSameWork self.old self.new }
    {
        let alloc = *self.args.bufs.allocator();
        self.given = Snapshot::of(&self.args.bufs);
        self.stage = Stage::Begun;
        let none = Args {
            shapes: Vec::new(alloc),
            bufs: Vec::new(alloc),
        };
        replace(&mut self.args, none)
    }

    /// Takes the buffers back, once the kernel was run on what `begin` gave.
    pub fn done(&mut self, args: Args)
        requires well { IsWellFormed self.old.plan.now }
        requires begun { self.old.stage ≡ Begun }
        requires results { lists_of args.bufs.items ≡ results (task_row self.old.plan.now self.old.task).kernel (task_row self.old.plan.now self.old.task).scalar
            (shapes_in (task_row self.old.plan.now self.old.task).accesses) (lists_of self.old.given.value.items) }
        requires filled { HaveShapes (shapes_in (task_row self.old.plan.now self.old.task).accesses) (lists_of args.bufs.items) }
        ensures bufs { self.new.args.bufs.items ≡ args.bufs.items }
        ensures stage { self.new.stage ≡ Ran }
        ensures told { self.new.told.mark ≡ self.old.told.mark }
        ensures same { IsSameWork self.old self.new }
    {
        self.args = args;
        self.stage = Stage::Ran;
    }

    /// The Plan that it is of.
    pub fn plan(&self) -> &'p Plan
        ensures { result ≡ self.now.plan }
    {
        self.plan
    }

    /// The number of its task.
    pub fn task(&self) -> u32
        ensures { result ≡ self.now.task }
    {
        self.task
    }

    /// Who has it.
    pub fn worker(&self) -> u32
        ensures { result ≡ self.now.worker }
    {
        self.worker
    }

    /// Which entry of the journal handed it out, from 1.
    pub fn number(&self) -> u64
        ensures { result ≡ self.now.number }
    {
        self.number
    }

    /// Whether the journal had a Pick then.
    pub fn picked(&self) -> bool
        ensures { result ≡ self.now.picked }
    {
        self.picked
    }
}
