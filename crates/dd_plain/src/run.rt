//! The rows of a Plan in their order.
ghost use Rattle.std.specs.Prelude.{◌≡◌, ◌+◌, ◌<◌, ◌≤◌, length, OnOk, IfOk};
ghost use Rattle.dd_blocks.specs.WellFormed.{IsWellFormed, StatementNamesRows};
ghost use Rattle.dd_meaning.specs.Text.{printed_by, row_text, text_of};
ghost use Rattle.dd_text.specs.Writes.{Writes};
ghost use Rattle.dd_plain.specs.Lists.{lists_of};
ghost use Rattle.dd_meaning.specs.RegionRows.{RunsAt};
ghost use Rattle.dd_plain.specs.Rows.{HasRun};
ghost use Rattle.dd_plain.specs.Sizes.{HasSizes};

use crate::task::run_tasks;
use crate::tasks::tasks_of;
use crate::world::filled_world;
use dd_blocks::{Plan, What};
use dd_io::Sink;
use dd_text::{PrintFault as PlainFault, print_array, print_moved, print_sum};
use dd_transfers::Moves;
use std::alloc::{AllocError, Global};

/// Runs the tasks of a Plan one after the other on whole arrays, and writes the script's text, row by row.
///
/// # Errors
/// `WriteFault`, a fault of the sink, which has counted it, and `Memory`, want of memory. What was appended then is
/// a front of the text.
pub fn run_plain<O: Sink>(alloc: Global, plan: &Plan, out: &mut O) -> Result<(), PlainFault>
    requires { IsWellFormed plan.now }
    ensures { Writes (text_of plan.now) result (O.taken out.old) (O.taken out.new) (O.faults out.old) (O.faults out.new) }
{
    let mut run = begin(alloc, plan)?;
    run_rows(alloc, plan, &mut run, out)
}

/// What a run has.
#[derive(Drop)]
pub(crate) struct RunState {
    /// The arrays, in the order of their numbers.
    world: Vec<Vec<i64>>,
    moves: Moves,
    /// Room for the text that waits to be written.
    line: Vec<u8>,
    /// How many elements the regions moved so far, as far as a row below prints it.
    moved: u64,
}

/// A run before its first row.
fn begin(alloc: Global, plan: &Plan) -> Result<RunState, AllocError>
    requires { IsWellFormed plan.now }
    ensures { IfOk result (HasRun plan.now 0) }
{
    Ok(RunState {
        world: filled_world(alloc, plan.arrays.as_slice())?,
        moves: Moves::new(alloc, plan)?,
        line: Vec::new(alloc),
        moved: 0,
    })
}

/// Runs all rows.
fn run_rows<O: Sink>(
    alloc: Global,
    plan: &Plan,
    run: &mut RunState,
    out: &mut O,
) -> Result<(), PlainFault>
    requires well { IsWellFormed plan.now }
    requires begun { HasRun plan.now 0 run.old }
    ensures { Writes (text_of plan.now) result (O.taken out.old) (O.taken out.new) (O.faults out.old) (O.faults out.new) }
{
    let rows = plan.statements.as_slice();
    for i in 0..rows.len() {
        run_row(alloc, plan, i, run, out)?;
    }
    Ok(())
}

/// Runs the row that has `i` rows above it.
fn run_row<O: Sink>(
    alloc: Global,
    plan: &Plan,
    i: usize,
    run: &mut RunState,
    out: &mut O,
) -> Result<(), PlainFault>
    requires well { IsWellFormed plan.now }
    requires within { i < length plan.now.statements }
    requires begun { HasRun plan.now i run.old }
    ensures ran { OnOk result (HasRun plan.now (i + 1) run.new) }
    ensures written { Writes (row_text plan.now i) result (O.taken out.old) (O.taken out.new) (O.faults out.old) (O.faults out.new) }
{
    let what = &plan.statements.as_slice()[i].what;
    if let What::Region(region) = what {
        return Ok(run_region(alloc, plan, i, *region, run)?);
    }
    run.moves.follow(what);
    write_row(alloc, plan, &run.world, run.moved, what, &mut run.line, out)
}

/// Runs the tasks of a region, that the row with `i` rows above it runs, and counts what it moves.
fn run_region(
    alloc: Global,
    plan: &Plan,
    i: usize,
    region: u32,
    run: &mut RunState,
) -> Result<(), AllocError>
    requires well { IsWellFormed plan.now }
    requires row { RunsAt plan.now i region }
    requires begun { HasRun plan.now i run.old }
    ensures { OnOk result (HasRun plan.now (i + 1) run.new) }
{
    let tasks = tasks_of(plan, region);
    run_tasks(alloc, plan.arrays.as_slice(), &mut run.world, tasks)?;
    run.moved += run.moves.in_region(plan, i, tasks);
    Ok(())
}

/// Writes what a row prints. `line` is only room for its text.
fn write_row<O: Sink>(
    alloc: Global,
    plan: &Plan,
    world: &[Vec<i64>],
    moved: u64,
    what: &What,
    line: &mut Vec<u8>,
    out: &mut O,
) -> Result<(), PlainFault>
    requires named { StatementNamesRows plan.now what.now }
    requires sizes { HasSizes plan.now.arrays (lists_of world.now) }
    ensures { Writes (printed_by plan.now (lists_of world.now) moved what.now)
        result (O.taken out.old) (O.taken out.new) (O.faults out.old) (O.faults out.new) }
{
    match what {
        What::Print(array) => {
            let place = *array as usize - 1;
            print_array(alloc, line, plan.array(*array).grid, &world[place], out)
        }
        What::Sum { array, name } => {
            let place = *array as usize - 1;
            print_sum(line, name.as_bytes(), &world[place], out)
        }
        What::Moved => print_moved(line, moved, out),
        _ => Ok(()),
    }
}
