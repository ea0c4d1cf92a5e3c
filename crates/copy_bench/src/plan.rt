//! A Plan with one block.
ghost use Rattle.std.specs.Prelude.{IfOk};
ghost use Rattle.dd_blocks.specs.Numbered.{IsNumberIn};

use dd_blocks::{BlockRow, Plan, Policy, Rule};
use dd_views::Items;
use std::alloc::{AllocError, Global};

/// A Plan that has a block of 1,000,000 elements, and no other row.
pub(crate) fn one_block(alloc: Global) -> Result<Plan, AllocError>
    ensures { IfOk result (λ plan. IsNumberIn plan.blocks 1) }
{
    let mut blocks = Items::of(Vec::new(alloc));
    blocks.push(BlockRow {
        array: 1,
        home: 1,
        size: 1_000_000,
    })?;
    Ok(Plan {
        spaces: Items::of(Vec::new(alloc)),
        procs: Items::of(Vec::new(alloc)),
        policy: Policy::Lru,
        rule: Rule::Rr,
        arrays: Items::of(Vec::new(alloc)),
        blocks,
        tasks: Items::of(Vec::new(alloc)),
        statements: Items::of(Vec::new(alloc)),
    })
}
