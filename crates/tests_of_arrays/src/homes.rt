//! Homes at values from outside.

use dd_blocks::{BlockRow, Plan, Policy, Rule, StatementRow, What};
use dd_views::Items;
use std::alloc::{AllocError, Global};
use std::process::Abort;
use std::test::Fail;

/// The array that a statement moves and the space that it moves it to. Array 0 stands for another statement.
type Step = (u32, u32);

/// A name, the statements, a row and a block, and the block's home when the row begins.
type HomeRow = (&'static str, &'static [Step], (u32, u32), u32);

/// The array and the first home of each block.
const BLOCKS: [(u32, u32); 4] = [(1, 1), (1, 2), (2, 3), (2, 1)];

const HOMES: [HomeRow; 14] = [
    ("no statement", &[], (1, 3), 3),
    ("nothing moves", &[(0, 0), (0, 0)], (3, 2), 2),
    ("moved above", &[(1, 3), (0, 0)], (2, 1), 3),
    (
        "moved above, the second block",
        &[(1, 3), (0, 0)],
        (2, 2),
        3,
    ),
    (
        "moved far above",
        &[(1, 3), (0, 0), (0, 0), (0, 0)],
        (4, 2),
        3,
    ),
    ("moved by the row itself", &[(0, 0), (1, 3)], (2, 1), 1),
    ("moved below", &[(0, 0), (0, 0), (1, 3)], (2, 1), 1),
    (
        "moved by the last row, the next asks",
        &[(0, 0), (1, 3)],
        (3, 1),
        3,
    ),
    ("moved twice", &[(1, 3), (1, 2), (0, 0)], (3, 1), 2),
    (
        "moved twice, between them",
        &[(1, 3), (1, 2), (0, 0)],
        (2, 1),
        3,
    ),
    ("moved back", &[(2, 1), (2, 3), (0, 0)], (3, 3), 3),
    ("another array moves", &[(2, 2), (0, 0)], (3, 1), 1),
    ("another array moves last", &[(1, 3), (2, 2)], (3, 2), 3),
    ("the first row", &[(2, 2)], (1, 4), 1),
];

#[test]
fn homes(rt: HostRuntime) -> Result<(), Fail> {
    for (name, steps, (row, block), wanted) in HOMES {
        let plan = plan_of(rt.alloc(), steps)?;
        check_home(&rt, name, &plan, row, block, wanted);
    }
    Ok(())
}

fn check_home(rt: &impl Abort, name: &str, plan: &Plan, row: u32, block: u32, wanted: u32) {
    assert!(rt; row >= 1 && row as usize <= plan.statements.as_slice().len() + 1);
    assert!(rt; block >= 1 && block as usize <= plan.blocks.as_slice().len());
    assert_eq!(rt; plan.home_before(row, block), wanted, "{name}");
}

fn plan_of(alloc: Global, steps: &[Step]) -> Result<Plan, AllocError> {
    Ok(Plan {
        spaces: Items::of(Vec::new(alloc)),
        procs: Items::of(Vec::new(alloc)),
        policy: Policy::Lru,
        rule: Rule::Home,
        arrays: Items::of(Vec::new(alloc)),
        blocks: blocks_of(alloc)?,
        tasks: Items::of(Vec::new(alloc)),
        statements: statements_of(alloc, steps)?,
    })
}

fn blocks_of(alloc: Global) -> Result<Items<BlockRow>, AllocError> {
    let mut blocks = Items::of(Vec::new(alloc));
    for (array, home) in BLOCKS {
        blocks.push(BlockRow {
            array,
            home,
            size: 1,
        })?;
    }
    Ok(blocks)
}

fn statements_of(alloc: Global, steps: &[Step]) -> Result<Items<StatementRow>, AllocError> {
    let mut statements = Items::of(Vec::new(alloc));
    for (array, space) in steps {
        let what = match array {
            0 => What::Moved,
            _ => What::MoveTo {
                array: *array,
                space: *space,
            },
        };
        statements.push(StatementRow { line: 1, what })?;
    }
    Ok(statements)
}
