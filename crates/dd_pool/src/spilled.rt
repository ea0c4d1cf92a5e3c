ghost use Rattle.std.specs.Prelude.{◌≡◌, ◌≤◌, ◌&&◌, true, [], length, IfOk, IfErr, IsErrOf};
ghost use Rattle.std.specs.Coded.{→_prop};
ghost use Rattle.std.specs.Int.{w64};
ghost use Rattle.std.specs.Int.RustNames.{FitsSigned};
ghost use Rattle.std.specs.List.{All};
ghost use Rattle.dd_causes.specs.Counts.{Rose};
ghost use Rattle.dd_blocks.specs.Numbered.{IsNumberIn};
ghost use Rattle.dd_store.specs.Encoded.{encoded};
ghost use Rattle.dd_stamps.specs.Cells.{AreTrue, AreTrue-prop, size_of};

use dd_blocks::Plan;
use dd_mark::{Mark, Told};
use dd_spans::RunMap;
use dd_stamps::{Stamped, restored};
use dd_store::{Slot, StoreFault, append_values, read_values};
use std::alloc::{AllocError, Global};
use std::marker::Brand;
use std::snapshot::Snapshot;

/// A slot with the versions of the copy that was written to it.
///
/// Where the slot tells its content, it holds the bytes of the copy's values. Contracts see these values, whether the slot
/// tells or not; no memory has them.
#[derive(Drop)]
pub struct Spilled<'p, S: Slot> {
    alloc: Global,
    pub(crate) plan: &'p Plan,
    pub(crate) block: u32,
    pub(crate) versions: RunMap,
    pub(crate) slot: S,
    pub(crate) told: Told,
    // The values that left.
    pub(crate) values: Snapshot<Vec<i64>>,
    ghost known: { IsNumberIn plan.now.blocks block },
    ghost stamps: { length versions.list ≡ size_of plan.now block },
    ghost full: { length values.value.items ≡ size_of plan.now block },
    ghost numbers: { All (FitsSigned w64) values.value.items },
    ghost kept: { S.tells ≡ true → S.content slot ≡ encoded values.value.items },
    ghost cells: { told.mark ≡ true → AreTrue plan.now block versions.list values.value.items } by { →_prop (AreTrue-prop plan.now block versions.list values.value.items) },
}

/// Writes the values of a copy to an empty slot.
///
/// # Errors
/// `Disk`, a fault that the slot has counted, and want of memory. The slot comes back then, and the copy is gone.
pub fn spill<'p, S: Slot>(
    alloc: Global,
    copy: Stamped<'p>,
    slot: S,
) -> Result<Spilled<'p, S>, (S, StoreFault)>
    requires { S.tells ≡ true → S.content slot ≡ [] }
    ensures plan { IfOk result (λ s. s.plan ≡ copy.entry.plan) }
    ensures block { IfOk result (λ s. s.block ≡ copy.entry.block) }
    ensures versions { IfOk result (λ s. s.versions ≡ copy.entry.versions) }
    ensures values { IfOk result (λ s. s.values.value.items ≡ copy.entry.values.items) }
    ensures told { IfOk result (λ s. s.told.mark ≡ copy.entry.told.mark) }

    // What the slot has counted.
    ensures kept { IfOk result (λ s. S.faults s.slot ≡ S.faults slot) }
    ensures cause { IfErr result (λ e. e.1 ≡ StoreFault.Disk → Rose (S.faults slot) (S.faults e.0)) }
    ensures only { IfErr result (λ e. (¬ (e.1 ≡ StoreFault.Disk)) → S.faults e.0 ≡ S.faults slot) }
    ensures later { IfErr result (λ e. S.faults slot ≤ S.faults e.0) }
{
    let mut slot = slot;
    match append_values(alloc, &mut slot, copy.values()) {
        Ok(()) => Ok(written(alloc, copy, slot)),
        Err(fault) => Err((slot, fault)),
    }
}

// What a copy leaves, once its values are in the slot.
fn written<'p, S: Slot>(alloc: Global, copy: Stamped<'p>, slot: S) -> Spilled<'p, S>
    requires kept { S.tells ≡ true → S.content slot ≡ encoded copy.values.items }
    requires fit { All (FitsSigned w64) copy.values.items }
    ensures plan { result.plan ≡ copy.entry.plan }
    ensures block { result.block ≡ copy.entry.block }
    ensures versions { result.versions ≡ copy.entry.versions }
    ensures values { result.values.value.items ≡ copy.entry.values.items }
    ensures told { result.told.mark ≡ copy.entry.told.mark }
    ensures slot { result.slot ≡ slot }
{
    let plan = copy.plan();
    let block = copy.block();
    let values = copy.snapshot();
    let told = copy.told();
    let versions = copy.into_versions();
    Spilled {
        alloc,
        plan,
        block,
        versions,
        slot,
        told,
        values,
    }
}

impl<'p, S: Slot> Spilled<'p, S> {
    ghost use Rattle.dd_pool.specs.Spilled.{KeepsSpilled};

    /// Reads the block, with its versions. The slot stays as it is.
    ///
    /// # Errors
    /// `Disk`, a fault that the slot has counted, and want of memory.
    pub fn recall(&mut self) -> Result<Stamped<'p>, StoreFault>
        ensures plan { IfOk result (λ c. c.plan ≡ self.old.plan) }
        ensures block { IfOk result (λ c. c.block ≡ self.old.block) }
        ensures versions { IfOk result (λ c. c.versions.list ≡ self.old.versions.list) }
        ensures values { S.tells ≡ true → IfOk result (λ c. c.values.items ≡ self.old.values.value.items) }
        ensures told { IfOk result (λ c. c.told.mark ≡ (self.old.told.mark && S.tells)) }
        ensures same { KeepsSpilled self.old self.new }

        // What the slot has counted.
        ensures cause { IsErrOf result StoreFault.Disk → Rose (S.faults self.old.slot) (S.faults self.new.slot) }
        ensures kept { (¬ IsErrOf result StoreFault.Disk) → S.faults self.new.slot ≡ S.faults self.old.slot }
        ensures later { S.faults self.old.slot ≤ S.faults self.new.slot }
    {
        let count = self.versions.len() as usize;
        let values = read_values(self.alloc, &mut self.slot, count)?;
        let copy = restored_by::<S, Brand>(
            &self.told,
            self.plan,
            self.block,
            &self.versions,
            values,
        )?;
        Ok(copy)
    }

    /// The versions of the copy. It takes no memory.
    pub fn versions(&self) -> &RunMap
        ensures { result.now ≡ self.now.versions }
    {
        &self.versions
    }

    /// The slot, where the block is of no use any more.
    pub fn into_slot(self) -> S
        ensures { result ≡ self.entry.slot }
    {
        let Spilled {
            alloc: _,
            plan: _,
            block: _,
            versions: _,
            slot,
            told: _,
            values: _,
        } = self;
        slot
    }
}

// The copy with these versions and values, beside the mark of what was written: a pick can only speak of what the call is passed.
fn restored_by<'p, S: Slot, M: Mark>(
    _told: &Told,
    plan: &'p Plan,
    block: u32,
    versions: &RunMap,
    values: Vec<i64>,
) -> Result<Stamped<'p>, AllocError>
    requires known { IsNumberIn plan.now.blocks block }
    requires stamps { length versions.now.list ≡ size_of plan.now block }
    requires full { length values.items ≡ size_of plan.now block }
    requires cells { M.told ≡ true → AreTrue plan.now block versions.now.list values.items }
    ensures plan { IfOk result (λ c. c.plan ≡ plan.entry) }
    ensures block { IfOk result (λ c. c.block ≡ block) }
    ensures versions { IfOk result (λ c. c.versions.list ≡ versions.now.list) }
    ensures values { IfOk result (λ c. c.values.items ≡ values.items) }
    ensures told { IfOk result (λ c. c.told.mark ≡ M.told) }
{
    restored::<M>(plan, block, versions, values)
}
