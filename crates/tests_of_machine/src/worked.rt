//! The Plans of the worked scripts of `dd_machine`, whose journals are computed and proved there.
ghost use Rattle.std.specs.Prelude.{◌≤◌, length};
ghost use Rattle.dd_blocks.specs.Limits.{text_limit};

use crate::plans::{THREE_ROWS, TWO_SPACES, plan_of};
use std::alloc::Global;
use std::process::Abort;
use std::test::Fail;

/// The Plan of `dd_machine/specs/TwoSpaces.antt`, field by field.
const OF_TWO_SPACES: &str =
    "Plan { spaces: Items { items: [SpaceRow { name: Name { bytes: [109] }, limit: 4096 }, \
    SpaceRow { name: Name { bytes: [110] }, limit: 4096 }] }, procs: Items { items: [\
    ProcRow { name: Name { bytes: [112] }, space: 1 }, ProcRow { name: Name { bytes: [113] }, \
    space: 2 }] }, policy: Lru, rule: Rr, arrays: Items { items: [ArrayRow { grid: Grid { rows: 4, \
    cols: 1, brows: 4, bcols: 1 }, fill: Zeros, first_block: 1, first_element: 0 }, \
    ArrayRow { grid: Grid { rows: 2, cols: 1, brows: 2, bcols: 1 }, fill: Zeros, first_block: 2, \
    first_element: 4 }] }, blocks: Items { items: [BlockRow { array: 1, home: 1, size: 4 }, \
    BlockRow { array: 2, home: 2, size: 2 }] }, tasks: Items { items: [TaskRow { line: 8, region: 1, \
    kernel: Fill, scalar: 7, accesses: Items { items: [AccessRow { view: View { array: 1, height: 4, \
    rows: Span3 { first: 1, step: 1, count: 4 }, cols: Span3 { first: 1, step: 1, count: 1 }, \
    part: All }, mode: Write }] }, proc: 1, deps: Items { items: [] }, blocks: Items { items: [1] }, \
    charge: 96 }, TaskRow { line: 9, region: 1, kernel: Copy, scalar: 0, accesses: Items { items: [\
    AccessRow { view: View { array: 2, height: 2, rows: Span3 { first: 1, step: 1, count: 2 }, \
    cols: Span3 { first: 1, step: 1, count: 1 }, part: All }, mode: Write }, \
    AccessRow { view: View { array: 1, height: 4, rows: Span3 { first: 1, step: 1, count: 2 }, \
    cols: Span3 { first: 1, step: 1, count: 1 }, part: All }, mode: Read }] }, proc: 2, \
    deps: Items { items: [1] }, blocks: Items { items: [1, 2] }, charge: 112 }] }, \
    statements: Items { items: [StatementRow { line: 5, what: Put(1) }, StatementRow { line: 6, \
    what: Put(2) }, StatementRow { line: 10, what: Region(1) }, StatementRow { line: 11, what: Moved }, \
    StatementRow { line: 12, what: Print(2) }] } }";

/// The Plan of `dd_machine/proofs/EveryExamples.antt`.
const OF_THREE_ROWS: &str =
    "Plan { spaces: Items { items: [SpaceRow { name: Name { bytes: [109] }, limit: 64 }, \
    SpaceRow { name: Name { bytes: [110] }, limit: 64 }] }, procs: Items { items: [\
    ProcRow { name: Name { bytes: [112] }, space: 1 }, ProcRow { name: Name { bytes: [113] }, \
    space: 2 }] }, policy: Lru, rule: Rr, arrays: Items { items: [ArrayRow { grid: Grid { rows: 1, \
    cols: 2, brows: 1, bcols: 2 }, fill: Iota, first_block: 1, first_element: 0 }, \
    ArrayRow { grid: Grid { rows: 1, cols: 2, brows: 1, bcols: 2 }, fill: Zeros, first_block: 2, \
    first_element: 2 }, ArrayRow { grid: Grid { rows: 1, cols: 2, brows: 1, bcols: 2 }, fill: Zeros, \
    first_block: 3, first_element: 4 }] }, blocks: Items { items: [BlockRow { array: 1, home: 1, \
    size: 2 }, BlockRow { array: 2, home: 2, size: 2 }, BlockRow { array: 3, home: 1, size: 2 }] }, \
    tasks: Items { items: [TaskRow { line: 10, region: 1, kernel: Fill, scalar: 7, \
    accesses: Items { items: [AccessRow { view: View { array: 3, height: 1, rows: Span3 { first: 1, \
    step: 1, count: 1 }, cols: Span3 { first: 1, step: 1, count: 2 }, part: All }, mode: Write }] }, \
    proc: 1, deps: Items { items: [] }, blocks: Items { items: [3] }, charge: 48 }, TaskRow { line: 11, \
    region: 1, kernel: Addk, scalar: 5, accesses: Items { items: [AccessRow { view: View { array: 1, \
    height: 1, rows: Span3 { first: 1, step: 1, count: 1 }, cols: Span3 { first: 1, step: 1, \
    count: 2 }, part: All }, mode: Both }] }, proc: 2, deps: Items { items: [] }, \
    blocks: Items { items: [1] }, charge: 48 }] }, statements: Items { items: [StatementRow { line: 5, \
    what: Put(1) }, StatementRow { line: 6, what: Put(2) }, StatementRow { line: 7, what: Put(3) }, \
    StatementRow { line: 8, what: MoveTo { array: 2, space: 1 } }, StatementRow { line: 12, \
    what: Region(1) }, StatementRow { line: 13, what: Print(1) }, StatementRow { line: 14, \
    what: Moved }] } }";

/// The Plan of a script, as it is shown.
fn shown(rt: &impl Abort, alloc: Global, script: &str) -> Result<String, Fail>
    requires { length script.now ≤ text_limit }
{
    let plan = plan_of(rt, alloc, script);
    Ok(format!(in alloc; "{plan:?}")?)
}

#[test]
fn the_worked_scripts_have_the_plans_of_the_definitions(rt: HostRuntime) -> Result<(), Fail> {
    assert_eq!(rt; shown(&rt, rt.alloc(), TWO_SPACES)?.as_str(), OF_TWO_SPACES);
    assert_eq!(rt; shown(&rt, rt.alloc(), THREE_ROWS)?.as_str(), OF_THREE_ROWS);
    Ok(())
}
