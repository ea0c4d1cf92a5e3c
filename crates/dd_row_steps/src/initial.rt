//! The tables before the first entry.
ghost use Rattle.std.specs.Prelude.{◌≡◌, ◌<◌, [], map, replicate, IfOk};
ghost use Rattle.dd_blocks.specs.declared.block_row.BlockRow.{BlockRow};
ghost use Rattle.dd_blocks.specs.Layout.{elements_in};
ghost use Rattle.dd_blocks.specs.WellFormed.{IsWellFormed};
ghost use Rattle.dd_machine.specs.declared.task_state.TaskState.TheVariants.{Waiting};
ghost use Rattle.dd_machine.specs.Runs.{start};
ghost use Rattle.dd_tables.specs.Sized.{IsSized};
ghost use Rattle.dd_tables.specs.Tables.{state_of};

use dd_blocks::Plan;
use dd_copies::Copies;
use dd_machine::TaskState;
use dd_owed::next_entry;
use dd_recency::Order;
use dd_spans::RunMap;
use dd_tables::Tables;
use dd_tables::rows::block_count;
use std::alloc::{AllocError, Global};

/// The tables of a Plan before the first entry: no copies, each task waits, each block has its first home.
///
/// # Errors
/// Want of memory.
pub fn start(alloc: Global, plan: &Plan) -> Result<Tables, AllocError>
    requires well { IsWellFormed plan.now }
    ensures value { IfOk result (λ tables. state_of plan.now tables ≡ start plan.now) }
    ensures sized { IfOk result (IsSized plan.now) }
{
    let spaces = plan.spaces.as_slice().len() as u32;
    let blocks = block_count(plan);
    Ok(Tables {
        copies: Copies::new(alloc, spaces, blocks)?,
        orders: empty_orders(alloc, spaces, blocks + 2)?,
        tasks: all_waiting(alloc, plan.tasks.as_slice().len())?,
        current: RunMap::new(alloc, element_count(plan), 0)?,
        homes: first_homes(alloc, plan)?,
        moved: 0,
        region: None,
        pin: None,
        row: 0,
        made: 0,
        next: next_entry(plan, 0, 0),
        at_work: no_workers(alloc, plan.procs.as_slice().len())?,
    })
}

/// So many empty orders, each with this room.
fn empty_orders(alloc: Global, spaces: u32, room: u32) -> Result<Vec<Order>, AllocError>
    requires { 0 < room }
    ensures { IfOk result (λ orders. orders.items ≡ replicate spaces (record { blocks = []; room = room })) }
{
    let mut orders = Vec::new(alloc);
    for _space in 0..spaces {
        orders.push(Order::new(alloc, room)?)?;
    }
    Ok(orders)
}

/// So many tasks that wait.
fn all_waiting(alloc: Global, tasks: usize) -> Result<Vec<TaskState>, AllocError>
    ensures { IfOk result (λ states. states.items ≡ replicate tasks Waiting) }
{
    vec![in alloc; TaskState::Waiting; tasks]
}

/// So many processors on which no task is at work.
fn no_workers(alloc: Global, procs: usize) -> Result<Vec<u32>, AllocError>
    ensures { IfOk result (λ workers. workers.items ≡ replicate procs 0) }
{
    vec![in alloc; 0; procs]
}

/// The first homes of the blocks.
fn first_homes(alloc: Global, plan: &Plan) -> Result<Vec<u32>, AllocError>
    ensures { IfOk result (λ homes. homes.items ≡ map (λ (row : BlockRow). row.home) plan.now.blocks) }
{
    let mut homes = Vec::new(alloc);
    for row in plan.blocks.as_slice() {
        homes.push(row.home)?;
    }
    Ok(homes)
}

/// How many elements all arrays have.
fn element_count(plan: &Plan) -> u64
    requires { IsWellFormed plan.now }
    ensures { result ≡ elements_in plan.now.arrays }
{
    match plan.arrays.as_slice().last() {
        Some(row) => row.first_element + u64::from(row.grid.rows) * u64::from(row.grid.cols),
        None => 0,
    }
}
