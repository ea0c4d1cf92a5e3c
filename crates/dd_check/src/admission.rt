//! A statement that stands below the lines above it.
ghost use Rattle.std.specs.Prelude.{◌≡◌, ◌≤◌, ℕ, true, false, None, IfErr, OnOk, All, length};
ghost use Rattle.dd_script.specs.declared.statement.Statement.TheVariants.{Task};
ghost use Rattle.dd_blocks.specs.Numbered.{IsNumberIn};
ghost use Rattle.dd_blocks.specs.Tasks.{limit_at};
ghost use Rattle.dd_check.specs.declared.fault.AcceptFault.TheVariants.{Memory, Script};
ghost use Rattle.dd_check.specs.declared.kind.Kind.TheVariants.{TooMany};
ghost use Rattle.dd_check.specs.Kinds.{amounts_of_task, limit_passed};
ghost use Rattle.dd_check.specs.Seen.{AreSeen};
ghost use Rattle.dd_check.specs.Sizes.{FitsIn, IsTooMuchOr};
ghost use Rattle.dd_check.specs.Above.{found_by, is_machine};
ghost use Rattle.dd_check.specs.Chain.{IsFoundOr, is_task, name_kinds};
ghost use Rattle.dd_check.specs.Drafts.{Counts, IsSoundDraft, above_of};
ghost use Rattle.dd_check.specs.Effects.{Enters, add_task};
ghost use Rattle.dd_check.specs.Faults.{AreClear, kinds};

use crate::block_fit::large_block;
use crate::context::{is_machine, is_misplaced};
use crate::draft::Draft;
use crate::effects::enter;
use crate::fault::{AcceptFault, Fault};
use crate::kind::Kind;
use crate::kinds::{accesses_by, kernel_of, name_kind};
use crate::limits::{passed_by, passed_by_task};
use crate::machine::settle;
use crate::region_task::push_task;
use crate::task::task_row;
use dd_blocks::{Name, TaskRow};
use dd_script::{Piece, Statement};
use std::alloc::Global;

/// The refusal of a statement on a line that passes a limit.
fn too_many(line: u32, limit: u64) -> AcceptFault
    ensures { result ≡ Script (record { line = line; kind = TooMany; a = limit; b = 0 }) }
{
    AcceptFault::Script(Fault {
        line,
        kind: Kind::TooMany,
        a: limit,
        b: 0,
    })
}

/// The first limit that a task passes.
fn task_limit(draft: &Draft, row: &TaskRow) -> Option<u64>
    requires sound { IsSoundDraft draft.now }
    requires opened { draft.now.opened ≡ None → ⊥ }
    requires views { AreSeen draft.now.plan row.now.accesses }
    requires few { length row.now.accesses ≤ 3 }
    ensures { result ≡ limit_passed (amounts_of_task (above_of draft.now) row.now) }
{
    match &draft.opened {
        Some(region) => passed_by_task(draft, region, row),
        None => unreachable!(),
    }
}

/// The limit of the space in which a task runs.
fn space_limit(draft: &Draft, row: &TaskRow) -> u64
    requires sound { IsSoundDraft draft.now }
    requires proc { IsNumberIn draft.now.plan.procs row.now.proc }
    ensures { result ≡ limit_at draft.now.plan row.now }
{
    let space = draft.plan.proc(row.proc).space;
    draft.plan.space(space).limit
}

/// The row of a task that passes no limit and is not too large enters.
fn admit_row(draft: &mut Draft, line: u32, row: TaskRow) -> Result<(), AcceptFault>
    requires sound { IsSoundDraft draft.old }
    requires opened { draft.old.opened ≡ None → ⊥ }
    requires proc { IsNumberIn draft.old.plan.procs row.proc }
    requires views { AreSeen draft.old.plan row.accesses }
    requires few { length row.accesses ≤ 3 }
    ensures entered { OnOk result (above_of draft.new ≡ add_task row (above_of draft.old)) }
    ensures counts { OnOk result (Counts draft.new) }
    ensures clear { OnOk result (FitsIn (above_of draft.old) row) }
    ensures fault { IfErr result (λ e. IsTooMuchOr e line (above_of draft.old) row) }
{
    if let Some(limit) = task_limit(draft, &row) {
        return Err(too_many(line, limit));
    }
    let limit = space_limit(draft, &row);
    if row.charge > limit {
        return Err(AcceptFault::Script(Fault {
            line,
            kind: Kind::TaskTooLarge,
            a: row.charge,
            b: limit,
        }));
    }
    push_task(draft, row)?;
    Ok(())
}

/// A task whose names are there.
fn admit_task(
    alloc: Global,
    draft: &mut Draft,
    line: u32,
    kernel: &Name,
    scalar: Option<i64>,
    pieces: &[Piece],
) -> Result<(), AcceptFault>
    requires sound { IsSoundDraft draft.old }
    requires named { AreClear line (above_of draft.old) (Task kernel.now scalar pieces.now) name_kinds }
    ensures clear { OnOk result (AreClear line (above_of draft.old) (Task kernel.now scalar pieces.now) kinds) }
    ensures enters { OnOk result (Enters line (above_of draft.old) (Task kernel.now scalar pieces.now) (above_of draft.new)) }
    ensures counts { OnOk result (Counts draft.new) }
    ensures fault { IfErr result (λ e. IsFoundOr e line (above_of draft.old) (Task kernel.now scalar pieces.now) kinds) }
{
    let k = kernel_of(line, kernel, scalar, pieces)?;
    let accesses = accesses_by(alloc, draft, line, k, pieces)?;
    let Some(region) = &draft.opened else {
        return Err(AcceptFault::Script(Fault::plain(line, Kind::WrongPlace)));
    };
    let row = task_row(alloc, draft, region, line, k, scalar.unwrap_or(0), accesses)?;
    admit_row(draft, line, row)
}

/// Another statement than a task, whose names are there and free.
fn admit_other(alloc: Global, draft: &mut Draft, line: u32, x: Statement) -> Result<(), AcceptFault>
    requires sound { IsSoundDraft draft.old }
    requires other { is_task x ≡ false }
    requires settled { is_machine x ≡ false → draft.old.settled ≡ true }
    requires named { (n : ℕ) → AreClear n (above_of draft.old) x name_kinds }
    ensures clear { OnOk result (AreClear line (above_of draft.old) x kinds) }
    ensures enters { OnOk result (Enters line (above_of draft.old) x (above_of draft.new)) }
    ensures counts { OnOk result (Counts draft.new) }
    ensures fault { IfErr result (λ e. IsFoundOr e line (above_of draft.old) x kinds) }
{
    if is_misplaced(draft, &x) {
        return Err(AcceptFault::Script(Fault::plain(line, Kind::WrongPlace)));
    }
    if let Some(limit) = passed_by(draft, &x) {
        return Err(too_many(line, limit));
    }
    if let Some(fault) = large_block(draft, line, &x) {
        return Err(AcceptFault::Script(fault));
    }
    enter(alloc, draft, line, x)?;
    Ok(())
}

/// A statement below what it finds: the machine is complete unless the statement is one on it.
fn admit_found(alloc: Global, draft: &mut Draft, line: u32, x: Statement) -> Result<(), AcceptFault>
    requires sound { IsSoundDraft draft.old }
    requires settled { is_machine x ≡ false → draft.old.settled ≡ true }
    ensures clear { OnOk result (AreClear line (above_of draft.old) x kinds) }
    ensures enters { OnOk result (Enters line (above_of draft.old) x (above_of draft.new)) }
    ensures counts { OnOk result (Counts draft.new) }
    ensures fault { IfErr result (λ e. IsFoundOr e line (above_of draft.old) x kinds) }
{
    if let Some(kind) = name_kind(draft, &x) {
        return Err(AcceptFault::Script(Fault::plain(line, kind)));
    }
    if let Statement::Task {
        kernel,
        scalar,
        pieces,
    } = &x
    {
        return admit_task(alloc, draft, line, kernel, *scalar, pieces.as_slice());
    }
    admit_other(alloc, draft, line, x)
}

/// A statement that is none on the machine finds the machine complete.
fn prepare(alloc: Global, draft: &mut Draft, x: &Statement) -> Result<(), AcceptFault>
    requires sound { IsSoundDraft draft.old }
    ensures found { OnOk result (above_of draft.new ≡ found_by (above_of draft.old) x.now) }
    ensures sound { OnOk result (IsSoundDraft draft.new) }
    ensures settled { OnOk result (is_machine x.now ≡ false → draft.new.settled ≡ true) }
    ensures memory { IfErr result (λ e. e ≡ Memory) }
{
    if is_machine(x) {
        return Ok(());
    }
    settle(alloc, draft)?;
    Ok(())
}

/// A statement below the lines above it.
pub(crate) fn admit(
    alloc: Global,
    draft: &mut Draft,
    line: u32,
    x: Statement,
) -> Result<(), AcceptFault>
    requires sound { IsSoundDraft draft.old }
    ensures clear { OnOk result (AreClear line (found_by (above_of draft.old) x) x kinds) }
    ensures enters { OnOk result (Enters line (found_by (above_of draft.old) x) x (above_of draft.new)) }
    ensures counts { OnOk result (Counts draft.new) }
    ensures fault { IfErr result (λ e. IsFoundOr e line (found_by (above_of draft.old) x) x kinds) }
{
    prepare(alloc, draft, &x)?;
    admit_found(alloc, draft, line, x)
}
