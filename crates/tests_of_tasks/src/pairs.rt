//! Dependencies beside those that are found by asking of each two tasks whether they are in conflict.
ghost use Rattle.std.specs.Prelude.{◌≡◌, ℕ, ◌<◌, length, max, IfOk};
ghost use Rattle.dd_views.specs.declared.shape.Shape.{Shape};
ghost use Rattle.dd_views.specs.Views.{IsViewOf};
ghost use Rattle.dd_alias.specs.Shapes.{AreViewsBy, HaveOneShape};

use dd_alias::{conflict, deps};
use dd_blocks::{AccessRow, TaskRow};
use dd_kernels::{Kernel, Mode};
use dd_views::{Items, Part, Range, Shape, View, view_of};
use std::alloc::{AllocError, Global};
use std::test::Fail;

/// Which elements of an array of 12 by 12 an access has. Where they stand is drawn for each access.
#[derive(Clone, Copy, Debug)]
enum Kind {
    Nothing,
    Element,
    Tile,
    Row,
    Column,
    All,
    Lower,
    UnitUpper,
    Diagonal,
    /// Every second row, and every third column, from the last one back.
    Odd,
    /// The rows of a column, from the last one back.
    Back,
}

/// A name, how many tasks there are, on how many arrays, and what their accesses have.
type Row = (&'static str, u32, u32, &'static [Kind]);

const ROWS: [Row; 12] = [
    ("one task", 1, 1, &[Kind::All]),
    ("no elements", 20, 1, &[Kind::Nothing]),
    ("elements", 300, 1, &[Kind::Element]),
    ("elements of many arrays", 300, 9, &[Kind::Element]),
    ("all of one array", 40, 1, &[Kind::All]),
    ("tiles", 100, 2, &[Kind::Tile]),
    (
        "elements, and all of the array",
        100,
        1,
        &[
            Kind::Element,
            Kind::Element,
            Kind::Element,
            Kind::All,
            Kind::Element,
        ],
    ),
    (
        "rows, columns and elements",
        100,
        2,
        &[Kind::Row, Kind::Column, Kind::Element, Kind::Element],
    ),
    (
        "elements and none",
        200,
        1,
        &[Kind::Element, Kind::Nothing, Kind::Element],
    ),
    (
        "parts",
        60,
        2,
        &[Kind::Lower, Kind::UnitUpper, Kind::Diagonal],
    ),
    (
        "parts and elements",
        100,
        3,
        &[
            Kind::Lower,
            Kind::Element,
            Kind::UnitUpper,
            Kind::Element,
            Kind::Diagonal,
            Kind::Element,
        ],
    ),
    (
        "steps, down and up",
        80,
        3,
        &[Kind::Odd, Kind::Back, Kind::Tile, Kind::Element],
    ),
];

#[test]
fn all_pairs_are_asked(rt: HostRuntime) -> Result<(), Fail> {
    for row in &ROWS {
        let (name, count, arrays, kinds) = *row;
        let tasks = drawn_tasks(rt.alloc(), count, arrays, kinds)?;
        assert!(rt; tasks.len() < 1000);
        let lists = deps(rt.alloc(), &tasks)?;
        assert_eq!(rt; lists.len(), tasks.len(), "{name}");
        for place in 0..tasks.len() {
            let wanted = conflicts_at(rt.alloc(), &tasks, place)?;
            assert_eq!(rt;
                lists[place].as_slice(),
                wanted.as_slice(),
                "{name}, {place}"
            );
        }
    }
    Ok(())
}

/// The places, from 1, of the tasks before the one at a place that it is in conflict with.
fn conflicts_at(alloc: Global, tasks: &[TaskRow], place: usize) -> Result<Vec<u32>, AllocError>
    requires shapes { HaveOneShape tasks.now }
    requires place { place < length tasks.now }
    requires few { length tasks.now < 1000 }
{
    let mut places = Vec::new(alloc);
    for earlier in 0..place {
        if conflict(&tasks[earlier], &tasks[place]) {
            places.push(earlier as u32 + 1)?;
        }
    }
    Ok(places)
}

/// Tasks of one to three accesses.
fn drawn_tasks(
    alloc: Global,
    count: u32,
    arrays: u32,
    kinds: &[Kind],
) -> Result<Vec<TaskRow>, AllocError>
    ensures { IfOk result (λ tasks. HaveOneShape tasks.items) }
{
    let mut tasks = Vec::new(alloc);
    let mut state = 1;
    for _ in 0..count {
        let accesses = drawn_accesses(alloc, &mut state, arrays, kinds)?;
        tasks.push(task_with(alloc, accesses))?;
    }
    Ok(tasks)
}

fn drawn_accesses(
    alloc: Global,
    state: &mut u32,
    arrays: u32,
    kinds: &[Kind],
) -> Result<Vec<AccessRow>, AllocError>
    ensures { IfOk result (λ accesses. AreViewsBy (λ (n : ℕ). record { rows = 12; cols = 12 }) accesses.items) }
{
    let mut accesses = Vec::new(alloc);
    for _ in 0..1 + draw(state, 3) {
        accesses.push(drawn_access(state, arrays, kinds)?)?;
    }
    Ok(accesses)
}

fn drawn_access(state: &mut u32, arrays: u32, kinds: &[Kind]) -> Result<AccessRow, AllocError>
    ensures { IfOk result (λ access. IsViewOf (record { rows = 12; cols = 12 }) access.view) }
{
    let array = 1 + draw(state, arrays);
    let kind = drawn_kind(kinds, draw(state, 100));
    let view = drawn_view(array, kind, draw(state, 12), draw(state, 12))?;
    let mode = match draw(state, 3) {
        0 => Mode::Write,
        1 => Mode::Both,
        _ => Mode::Read,
    };
    Ok(AccessRow { view, mode })
}

/// One of the kinds, in turn by a number.
fn drawn_kind(kinds: &[Kind], number: u32) -> Kind {
    if kinds.is_empty() {
        return Kind::Nothing;
    }
    kinds[number as usize % kinds.len()]
}

/// A view that is no view of the array ends the test.
fn drawn_view(array: u32, kind: Kind, row: u32, col: u32) -> Result<View, AllocError>
    ensures { IfOk result (IsViewOf (record { rows = 12; cols = 12 })) }
{
    let shape = Shape { rows: 12, cols: 12 };
    let rows = rows_of(kind, i64::from(row) + 1);
    let cols = cols_of(kind, i64::from(col) + 1);
    match view_of(array, shape, rows, cols, part_of(kind)) {
        Ok(view) => Ok(view),
        Err(_) => Err(AllocError),
    }
}

fn rows_of(kind: Kind, row: i64) -> Range {
    match kind {
        Kind::Nothing => Range::Run { first: 1, last: 0 },
        Kind::Element | Kind::Row => Range::One(row),
        Kind::Tile => Range::Run {
            first: row,
            last: (row | 3).min(12),
        },
        Kind::Odd => Range::Steps {
            first: row,
            step: 2,
            last: 12,
        },
        Kind::Back => Range::Steps {
            first: 12,
            step: -1,
            last: row,
        },
        _ => Range::All,
    }
}

fn cols_of(kind: Kind, col: i64) -> Range {
    match kind {
        Kind::Element | Kind::Column | Kind::Back => Range::One(col),
        Kind::Tile => Range::Run {
            first: col,
            last: (col | 3).min(12),
        },
        Kind::Odd => Range::Steps {
            first: 12,
            step: -3,
            last: col,
        },
        _ => Range::All,
    }
}

fn part_of(kind: Kind) -> Part {
    match kind {
        Kind::Lower => Part::Lower,
        Kind::UnitUpper => Part::UnitUpper,
        Kind::Diagonal => Part::Diag,
        _ => Part::All,
    }
}

/// A number below `end`, or 0, by a linear congruence.
fn draw(state: &mut u32, end: u32) -> u32
    ensures { result < max end 1 }
{
    *state = state.wrapping_mul(1664525).wrapping_add(1013904223);
    if end == 0 { 0 } else { (*state >> 16) % end }
}

fn task_with(alloc: Global, accesses: Vec<AccessRow>) -> TaskRow
    ensures { result.accesses ≡ accesses.items }
{
    TaskRow {
        line: 0,
        region: 1,
        kernel: Kernel::Copy,
        scalar: 0,
        accesses: Items::of(accesses),
        proc: 1,
        deps: Items::of(Vec::new(alloc)),
        blocks: Items::of(Vec::new(alloc)),
        charge: 0,
    }
}
