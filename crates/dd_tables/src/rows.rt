//! The rows of a Plan by their numbers.
ghost use Rattle.std.specs.Prelude.{◌≡◌, ◌↔◌, ◌<◌, ◌≤◌, ◌^◌, IsTrue};
ghost use Rattle.dd_blocks.specs.Limits.{blocks_limit};
ghost use Rattle.dd_blocks.specs.Numbered.{task_row};
ghost use Rattle.dd_blocks.specs.WellFormed.{IsWellFormed};
ghost use Rattle.dd_machine.specs.Words.{IsOneOf, argument_bytes, blocks, bytes, is_of, limit, place, proc_of, scratch, size, spaces, tasks, touches};

use dd_blocks::{Plan, TaskRow};

/// The row of a task.
pub fn task_row(plan: &Plan, task: u32) -> &TaskRow
    requires { IsOneOf (tasks plan.now) task }
    ensures { result.now ≡ task_row plan.now task }
{
    plan.task(task)
}

/// The processor of a task.
pub fn proc_of(plan: &Plan, task: u32) -> u32
    requires { IsOneOf (tasks plan.now) task }
    ensures { result ≡ proc_of plan.now task }
{
    plan.task(task).proc
}

/// The space of a task, or 0 where there is none of the number.
pub fn place(plan: &Plan, task: u32) -> u32
    requires { IsWellFormed plan.now }
    ensures value { result ≡ place plan.now task }
    ensures known { IsOneOf (tasks plan.now) task → IsOneOf (spaces plan.now) result }
{
    if !is_task(plan, task) {
        return 0;
    }
    plan.proc(proc_of(plan, task)).space
}

/// Whether a task touches a block.
pub fn touches(plan: &Plan, task: u32, block: u32) -> bool
    requires well { IsWellFormed plan.now }
    requires task { IsOneOf (tasks plan.now) task }
    ensures value { result ≡ touches plan.now task block }
    ensures known { IsTrue result → IsOneOf (blocks plan.now) block }
{
    plan.task(task)
        .blocks
        .as_slice()
        .binary_search(&block)
        .is_ok()
}

/// Whether a number is that of a task of a region.
pub fn is_of(plan: &Plan, region: u32, task: u32) -> bool
    ensures { result ≡ is_of plan.now region task }
{
    1 <= task && task as usize <= plan.tasks.as_slice().len() && plan.task(task).region == region
}

/// The limit of a space, in bytes.
pub fn limit(plan: &Plan, space: u32) -> u64
    requires { IsOneOf (spaces plan.now) space }
    ensures { result ≡ limit plan.now space }
{
    plan.space(space).limit
}

/// The size of a block, in elements.
pub fn size(plan: &Plan, block: u32) -> u64
    requires { IsOneOf (blocks plan.now) block }
    ensures value { result ≡ size plan.now block }
    ensures small { result < 2 ^ 32 }
{
    u64::from(plan.block(block).size)
}

/// In bytes.
pub fn bytes(plan: &Plan, block: u32) -> u64
    requires { IsOneOf (blocks plan.now) block }
    ensures value { result ≡ bytes plan.now block }
    ensures small { result < 2 ^ 35 }
{
    8 * size(plan, block)
}

/// How many blocks there are.
#[tactic(auto, using(crate::proofs::SmallLemmas::few_blocks))]
pub fn block_count(plan: &Plan) -> u32
    requires { IsWellFormed plan.now }
    ensures value { result ≡ blocks plan.now }
    ensures few { result ≤ blocks_limit }
{
    plan.blocks.as_slice().len() as u32
}

/// Whether a number is that of a space, of a block, of a task.
pub fn is_space(plan: &Plan, space: u32) -> bool
    ensures { IsTrue result ↔ IsOneOf (spaces plan.now) space }
{
    1 <= space && space as usize <= plan.spaces.as_slice().len()
}

pub fn is_block(plan: &Plan, block: u32) -> bool
    ensures { IsTrue result ↔ IsOneOf (blocks plan.now) block }
{
    1 <= block && block as usize <= plan.blocks.as_slice().len()
}

pub fn is_task(plan: &Plan, task: u32) -> bool
    ensures { IsTrue result ↔ IsOneOf (tasks plan.now) task }
{
    1 <= task && task as usize <= plan.tasks.as_slice().len()
}

/// The bytes of the arguments of a task.
#[tactic(auto, unfolding(dd_machine::specs::Words::argument_bytes))]
pub fn argument_bytes(plan: &Plan, task: u32) -> u64
    requires well { IsWellFormed plan.now }
    requires task { IsOneOf (tasks plan.now) task }
    ensures value { result ≡ argument_bytes plan.now task }
    ensures small { result ≤ 2 ^ 40 }
{
    let mut sum = 0;
    for access in plan.task(task).accesses.as_slice() {
        sum += access.view.len();
    }
    8 * sum
}

/// The bytes of the scratch of a task.
#[tactic(auto, unfolding(dd_machine::specs::Words::scratch))]
pub fn scratch(plan: &Plan, task: u32) -> u64
    requires well { IsWellFormed plan.now }
    requires task { IsOneOf (tasks plan.now) task }
    ensures value { result ≡ scratch plan.now task }
    ensures small { result < 2 ^ 35 }
{
    let mut most = 0;
    for block in plan.task(task).blocks.as_slice() {
        most = size(plan, *block).max(most);
    }
    8 * most
}
