//! Placements at values from outside.
ghost use Rattle.std.specs.Prelude.{◌≡◌, ◌^◌, ◌-◌, ◌*◌, ◌<◌, All, AllPairs, IfOk, IfSome, IsTrue, length};
ghost use Rattle.dd_blocks.specs.Limits.{procs_limit};
ghost use Rattle.dd_blocks.specs.Lives.{region_run};
ghost use Rattle.dd_blocks.specs.Numbered.{IsNumberIn, array_row};
ghost use Rattle.dd_blocks.specs.Tasks.{shape_in};
ghost use Rattle.dd_blocks.specs.WellFormed.{IsFromOneTo};
ghost use Rattle.dd_blocks.specs.OfPlan.{HasBlocks, IsOfPlan};
ghost use Rattle.dd_place.specs.Premises.{CanPlace, IsBelow};

mod block_homes;
mod cases;
mod layout;
mod leading_accesses;
mod pieces;
mod turns;

use block_homes::HOMES;
use cases::{Case, Step};
use dd_blocks::{
    AccessRow, ArrayRow, BlockRow, Fill, Grid, Name, Plan, Policy, ProcRow, Rule, StatementRow,
    TaskRow, What,
};
use dd_kernels::{Kernel, Mode};
use dd_place::place;
use dd_views::{Items, Range, Shape, view_of};
use layout::{ARRAYS, BLOCKS};
use leading_accesses::ACCESSES;
use pieces::{Piece, range_of};
use std::alloc::{AllocError, Global};
use std::process::Abort;
use std::test::Fail;
use turns::ROUND_ROBIN;

#[test]
fn round_robin(rt: HostRuntime) -> Result<(), Fail> {
    for case in &ROUND_ROBIN {
        check(&rt, Rule::Rr, case, rt.alloc())?;
    }
    Ok(())
}

#[test]
fn homes(rt: HostRuntime) -> Result<(), Fail> {
    for case in &HOMES {
        check(&rt, Rule::Home, case, rt.alloc())?;
    }
    Ok(())
}

#[test]
fn accesses(rt: HostRuntime) -> Result<(), Fail> {
    for case in &ACCESSES {
        check(&rt, Rule::Home, case, rt.alloc())?;
    }
    Ok(())
}

fn check(rt: &impl Abort, rule: Rule, case: &Case, alloc: Global) -> Result<(), AllocError> {
    let plan = plan_of(alloc, rule, case)?;
    assert!(rt; can_place(&plan), "{}", case.name);
    let task = task_of(rt, alloc, &plan, case)?;
    assert_eq!(rt;
        place(&plan, case.earlier, &task),
        case.wanted,
        "{}",
        case.name
    );
    Ok(())
}

fn task_of(rt: &impl Abort, alloc: Global, plan: &Plan, case: &Case) -> Result<TaskRow, AllocError>
    ensures { IfOk result (λ task. All (IsOfPlan plan.now) task.accesses) }
{
    let accesses = accesses_of(rt, alloc, plan, case.pieces)?;
    Ok(TaskRow {
        line: 1,
        region: case.region,
        kernel: Kernel::Fill,
        scalar: 0,
        accesses,
        proc: 0,
        deps: Items::of(Vec::new(alloc)),
        blocks: Items::of(Vec::new(alloc)),
        charge: 0,
    })
}

fn accesses_of(
    rt: &impl Abort,
    alloc: Global,
    plan: &Plan,
    pieces: &[(Piece, Mode)],
) -> Result<Items<AccessRow>, AllocError>
    ensures { IfOk result (All (IsOfPlan plan.now)) }
{
    let mut accesses = Items::of(Vec::new(alloc));
    for (piece, mode) in pieces {
        match access_of(plan, *piece, *mode) {
            Some(access) => accesses.push(access)?,
            None => assert!(rt; false),
        }
    }
    Ok(accesses)
}

fn access_of(plan: &Plan, piece: Piece, mode: Mode) -> Option<AccessRow>
    ensures { IfSome result (IsOfPlan plan.now) }
{
    let (array, rows, cols, part) = piece;
    let Some(shape) = small_shape(plan, array) else {
        return None;
    };
    match view_of(array, shape, range_of(rows), range_of(cols), part) {
        Ok(view) => Some(AccessRow { view, mode }),
        Err(_) => None,
    }
}

/// The shape of an array with short edges.
#[tactic(auto, using(dd_place::proofs::NumberedLemmas::numbered_at))]
fn small_shape(plan: &Plan, array: u32) -> Option<Shape>
    ensures number { IfSome result (λ s. IsNumberIn plan.now.arrays array) }
    ensures shape { IfSome result (λ s. s ≡ shape_in (array_row plan.now array)) }
    ensures small { IfSome result (λ s. s.rows * s.cols < 2 ^ 63) }
{
    let arrays = plan.arrays.as_slice();
    if array < 1 || array as usize > arrays.len() {
        return None;
    }
    let grid = arrays[array as usize - 1].grid;
    if grid.rows >= 65536 || grid.cols >= 65536 {
        return None;
    }
    Some(Shape {
        rows: grid.rows,
        cols: grid.cols,
    })
}

fn plan_of(alloc: Global, rule: Rule, case: &Case) -> Result<Plan, AllocError> {
    Ok(Plan {
        spaces: Items::of(Vec::new(alloc)),
        procs: procs_of(alloc, case.procs)?,
        policy: Policy::Lru,
        rule,
        arrays: arrays_of(alloc)?,
        blocks: blocks_of(alloc, case.spaces.max(1))?,
        tasks: Items::of(Vec::new(alloc)),
        statements: statements_of(alloc, case.steps)?,
    })
}

fn procs_of(alloc: Global, spaces: &[u32]) -> Result<Items<ProcRow>, AllocError> {
    let mut procs = Items::of(Vec::new(alloc));
    for space in spaces {
        let name = Name::of(alloc, b"p")?;
        procs.push(ProcRow {
            name,
            space: *space,
        })?;
    }
    Ok(procs)
}

fn arrays_of(alloc: Global) -> Result<Items<ArrayRow>, AllocError> {
    let mut arrays = Items::of(Vec::new(alloc));
    for (rows, cols, brows, bcols, first_block, first_element) in ARRAYS {
        arrays.push(ArrayRow {
            grid: Grid {
                rows,
                cols,
                brows,
                bcols,
            },
            fill: Fill::Zeros,
            first_block,
            first_element,
        })?;
    }
    Ok(arrays)
}

fn blocks_of(alloc: Global, spaces: u32) -> Result<Items<BlockRow>, AllocError>
    requires { 0 < spaces }
{
    let mut blocks = Items::of(Vec::new(alloc));
    for (i, (array, size)) in BLOCKS.iter().enumerate() {
        let home = i as u32 % spaces + 1;
        blocks.push(BlockRow {
            array: *array,
            home,
            size: *size,
        })?;
    }
    Ok(blocks)
}

fn statements_of(alloc: Global, steps: &[Step]) -> Result<Items<StatementRow>, AllocError> {
    let mut statements = Items::of(Vec::new(alloc));
    for step in steps {
        let what = match step {
            Step::Run(region) => What::Region(*region),
            Step::Move(array, space) => What::MoveTo {
                array: *array,
                space: *space,
            },
            Step::Other => What::Moved,
        };
        statements.push(StatementRow { line: 1, what })?;
    }
    Ok(statements)
}

/// Whether the Plan has what a placement asks of it.
fn can_place(plan: &Plan) -> bool
    ensures { IsTrue result → CanPlace plan.now }
{
    has_few_rows(plan) && have_blocks(plan) && rise(plan.statements.as_slice())
}

fn has_few_rows(plan: &Plan) -> bool
    ensures { IsTrue result → IsFromOneTo procs_limit (length plan.now.procs) × (length plan.now.blocks < 2 ^ 32) × (length plan.now.statements < 2 ^ 32 - 1) }
{
    let procs = plan.procs.as_slice().len();
    let blocks = plan.blocks.as_slice().len();
    let rows = plan.statements.as_slice().len();
    1 <= procs && procs <= 32 && blocks <= 16 && rows <= 16
}

fn have_blocks(plan: &Plan) -> bool
    ensures { IsTrue result → All (HasBlocks plan.now) plan.now.arrays }
{
    let arrays = plan.arrays.as_slice();
    for array in arrays {
        if !has_blocks(plan, array) {
            return false;
        }
    }
    true
}

fn has_blocks(plan: &Plan, array: &ArrayRow) -> bool
    ensures { IsTrue result → HasBlocks plan.now array.now }
{
    let grid = array.grid;
    let edges = grid.rows.min(grid.cols).min(grid.brows).min(grid.bcols);
    if edges < 1 || grid.rows.max(grid.cols) >= 65536 {
        return false;
    }
    let before = u64::from(array.first_block);
    before >= 1 && before + grid.blocks() <= plan.blocks.as_slice().len() as u64 + 1
}

fn rise(rows: &[StatementRow]) -> bool
    ensures { IsTrue result → AllPairs IsBelow rows.now }
{
    let mut last = 0;
    for row in rows {
        let Some(run) = region_run(&row.what) else {
            continue;
        };
        if run <= last {
            return false;
        }
        last = run;
    }
    true
}

fn region_run(what: &What) -> Option<u32>
    ensures { result ≡ region_run what.now }
{
    match what {
        What::Region(region) => Some(*region),
        _ => None,
    }
}
