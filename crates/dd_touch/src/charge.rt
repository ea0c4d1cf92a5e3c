//! What a task takes of the space that it runs in.
ghost use Rattle.std.specs.Prelude.{◌≡◌, ◌*◌, ◌^◌, ◌≤◌, All, length, map, sum, sum_by};
ghost use Rattle.dd_views.specs.IndexList.{index_list};
ghost use Rattle.dd_blocks.specs.declared.access_row.AccessRow.{AccessRow};
ghost use Rattle.dd_blocks.specs.declared.task_row.TaskRow.{TaskRow};
ghost use Rattle.dd_blocks.specs.Charges.{charge_of, greatest};
ghost use Rattle.dd_blocks.specs.Limits.{blocks_limit, elements_limit};
ghost use Rattle.dd_blocks.specs.Numbered.{IsNumberIn, block_row};
ghost use Rattle.dd_touch.specs.Small.{IsSmallAccess};

use dd_blocks::limits::ELEMENT_BYTES;
use dd_blocks::{AccessRow, Plan};

/// How many elements some accesses have.
pub fn access_elements(accesses: &[AccessRow]) -> u64
    requires few { length accesses.now ≤ 3 }
    requires small { All IsSmallAccess accesses.now }
    ensures value { result ≡ sum_by (λ (a : AccessRow). length (index_list a.view)) accesses.now }
    ensures few { result ≤ 3 * elements_limit }
{
    let mut sum = 0;
    for access in accesses {
        sum += access.view.len();
    }
    sum
}

/// In bytes: a copy of each block, the arguments of the kernel, and room to move one block.
pub fn charge_of(plan: &Plan, accesses: &[AccessRow], blocks: &[u32]) -> u64
    requires few_accesses { length accesses.now ≤ 3 }
    requires accesses { All IsSmallAccess accesses.now }
    requires few_blocks { length blocks.now ≤ blocks_limit }
    requires blocks { All (IsNumberIn plan.now.blocks) blocks.now }
    ensures { (task : TaskRow) → task.accesses ≡ accesses.now → task.blocks ≡ blocks.now → result ≡ charge_of plan.now task }
{
    let scratch = u64::from(largest(plan, blocks));
    ELEMENT_BYTES * (copied(plan, blocks) + access_elements(accesses) + scratch)
}

/// How many elements some blocks have.
fn copied(plan: &Plan, blocks: &[u32]) -> u64
    requires few { length blocks.now ≤ blocks_limit }
    requires numbers { All (IsNumberIn plan.now.blocks) blocks.now }
    ensures value { result ≡ sum (map (λ block. (block_row plan.now block).size) blocks.now) }
    ensures few { result ≤ blocks_limit * 2 ^ 32 }
{
    let mut sum = 0;
    for block in blocks {
        sum += u64::from(plan.block(*block).size);
    }
    sum
}

/// How many elements the largest of some blocks has.
fn largest(plan: &Plan, blocks: &[u32]) -> u32
    requires { All (IsNumberIn plan.now.blocks) blocks.now }
    ensures { result ≡ greatest (map (λ block. (block_row plan.now block).size) blocks.now) }
{
    let mut size = 0;
    for block in blocks {
        size = plan.block(*block).size.max(size);
    }
    size
}
