//! What a statement leaves.
ghost use Rattle.std.specs.Prelude.{◌≡◌, ◌≢◌, false, true, None, OnOk};
ghost use Rattle.dd_script.specs.declared.statement.Statement.TheVariants as statement;
ghost use Rattle.dd_check.specs.Above.{array_named, is_machine, space_named};
ghost use Rattle.dd_check.specs.Chain.{is_task};
ghost use Rattle.dd_check.specs.Drafts.{Counts, IsSoundDraft, above_of};
ghost use Rattle.dd_check.specs.Effects.{Enters};
ghost use Rattle.dd_check.specs.Faults.{AreClear, kinds};

use crate::array::array_of;
use crate::array_names::{add_name, drop_name};
use crate::context::is_machine;
use crate::draft::Draft;
use crate::lookup::space_of;
use crate::new_array::make;
use crate::opened::Opened;
use crate::region_end::close_region;
use crate::row::{add_row, touch};
use dd_blocks::{Name, ProcRow, SpaceRow, What};
use dd_script::Statement;
use std::alloc::{AllocError, Global};

/// One more space.
fn add_space(draft: &mut Draft, line: u32, name: Name, limit: u64) -> Result<(), AllocError>
    requires { Counts draft.old }
    ensures entered { OnOk result (Enters line (above_of draft.old) (statement.Space name limit) (above_of draft.new)) }
    ensures counts { OnOk result (Counts draft.new) }
{
    draft.plan.spaces.push(SpaceRow { name, limit })?;
    Ok(())
}

/// One more processor.
fn add_proc(draft: &mut Draft, line: u32, name: Name, space: &Name) -> Result<(), AllocError>
    requires sound { IsSoundDraft draft.old }
    requires space { space_named draft.old.plan space.now ≢ None }
    ensures entered { OnOk result (Enters line (above_of draft.old) (statement.Proc name space.now) (above_of draft.new)) }
    ensures counts { OnOk result (Counts draft.new) }
{
    let space = space_of(&draft.plan, space);
    draft.plan.procs.push(ProcRow { name, space })?;
    Ok(())
}

/// A statement on the machine.
fn enter_machine(draft: &mut Draft, line: u32, x: Statement) -> Result<(), AllocError>
    requires sound { IsSoundDraft draft.old }
    requires machine { is_machine x ≡ true }
    requires clear { AreClear line (above_of draft.old) x kinds }
    ensures enters { OnOk result (Enters line (above_of draft.old) x (above_of draft.new)) }
    ensures counts { OnOk result (Counts draft.new) }
{
    match x {
        Statement::Space { name, limit } => add_space(draft, line, name, limit),
        Statement::Proc { name, space } => add_proc(draft, line, name, &space),
        Statement::PolicyIs(policy) => {
            draft.plan.policy = policy;
            Ok(())
        }
        Statement::PlaceIs(rule) => {
            draft.plan.rule = rule;
            Ok(())
        }
        _ => unreachable!(),
    }
}

/// A new home for an array.
fn add_move(draft: &mut Draft, line: u32, name: &Name, space: &Name) -> Result<(), AllocError>
    requires sound { IsSoundDraft draft.old }
    requires known { array_named (above_of draft.old) name.now ≢ None }
    requires space { space_named draft.old.plan space.now ≢ None }
    ensures entered { OnOk result (Enters line (above_of draft.old) (statement.MoveTo name.now space.now) (above_of draft.new)) }
    ensures counts { OnOk result (Counts draft.new) }
{
    let array = array_of(draft, name);
    let space = space_of(&draft.plan, space);
    touch(draft, line, array, What::MoveTo { array, space })
}

/// The values of an array are printed.
fn add_print(draft: &mut Draft, line: u32, name: &Name) -> Result<(), AllocError>
    requires sound { IsSoundDraft draft.old }
    requires known { array_named (above_of draft.old) name.now ≢ None }
    ensures entered { OnOk result (Enters line (above_of draft.old) (statement.Print name.now) (above_of draft.new)) }
    ensures counts { OnOk result (Counts draft.new) }
{
    let array = array_of(draft, name);
    touch(draft, line, array, What::Print(array))
}

/// The sum of an array is printed.
fn add_sum(draft: &mut Draft, line: u32, name: Name) -> Result<(), AllocError>
    requires sound { IsSoundDraft draft.old }
    requires known { array_named (above_of draft.old) name ≢ None }
    ensures entered { OnOk result (Enters line (above_of draft.old) (statement.Sum name) (above_of draft.new)) }
    ensures counts { OnOk result (Counts draft.new) }
{
    let array = array_of(draft, &name);
    touch(draft, line, array, What::Sum { array, name })
}

/// The number of moved elements is printed.
fn add_moved(draft: &mut Draft, line: u32) -> Result<(), AllocError>
    requires { Counts draft.old }
    ensures entered { OnOk result (Enters line (above_of draft.old) statement.Moved (above_of draft.new)) }
    ensures counts { OnOk result (Counts draft.new) }
{
    add_row(draft, line, What::Moved)?;
    Ok(())
}

/// A region begins.
fn open_region(alloc: Global, draft: &mut Draft, line: u32)
    requires { Counts draft.old }
    ensures entered { Enters line (above_of draft.old) statement.Region (above_of draft.new) }
    ensures counts { Counts draft.new }
{
    draft.opened = Some(Opened::new(alloc, line));
}

/// What a statement leaves that may stand where it does, other than a task.
pub(crate) fn enter(
    alloc: Global,
    draft: &mut Draft,
    line: u32,
    x: Statement,
) -> Result<(), AllocError>
    requires sound { IsSoundDraft draft.old }
    requires other { is_task x ≡ false }
    requires settled { is_machine x ≡ false → draft.old.settled ≡ true }
    requires clear { AreClear line (above_of draft.old) x kinds }
    ensures enters { OnOk result (Enters line (above_of draft.old) x (above_of draft.new)) }
    ensures counts { OnOk result (Counts draft.new) }
{
    if is_machine(&x) {
        return enter_machine(draft, line, x);
    }
    enter_script(alloc, draft, line, x)
}

/// The same of a statement that is not one on the machine.
fn enter_script(alloc: Global, draft: &mut Draft, line: u32, x: Statement) -> Result<(), AllocError>
    requires sound { IsSoundDraft draft.old }
    requires other { is_task x ≡ false }
    requires machine { is_machine x ≡ false }
    requires settled { draft.old.settled ≡ true }
    requires clear { AreClear line (above_of draft.old) x kinds }
    ensures enters { OnOk result (Enters line (above_of draft.old) x (above_of draft.new)) }
    ensures counts { OnOk result (Counts draft.new) }
{
    match x {
        Statement::Array {
            name,
            rows,
            cols,
            brows,
            bcols,
            fill,
        } => make(alloc, draft, line, &name, rows, cols, brows, bcols, fill),
        Statement::Same { name, old } => add_name(alloc, draft, line, &name, &old),
        Statement::Drop(name) => drop_name(draft, line, &name),
        Statement::MoveTo { name, space } => add_move(draft, line, &name, &space),
        Statement::Region => {
            open_region(alloc, draft, line);
            Ok(())
        }
        Statement::End => close_region(alloc, draft, line),
        Statement::Print(name) => add_print(draft, line, &name),
        Statement::Sum(name) => add_sum(draft, line, name),
        Statement::Moved => add_moved(draft, line),
        _ => unreachable!(),
    }
}
