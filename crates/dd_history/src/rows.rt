//! Rows of a Plan by their numbers, and what follows from them.
ghost use Rattle.std.specs.Prelude.{◌≡◌, ◌+◌, ◌-◌, ◌<◌, ◌≤◌, nat_eq, cond, length};
ghost use Rattle.std.specs.List.{list_any};
ghost use Rattle.dd_blocks.specs.Grids.{element_count};
ghost use Rattle.dd_blocks.specs.Homes.{home_in_region, row_of_region, runs_region};
ghost use Rattle.dd_blocks.specs.Layout.{elements_in};
ghost use Rattle.dd_blocks.specs.Numbered.{IsNumberIn, array_row};
ghost use Rattle.dd_blocks.specs.WellFormed.{IsWellFormed};
ghost use Rattle.dd_meaning.specs.Moves.{place_of};
ghost use Rattle.dd_meaning.specs.Versions.{tasks_in};

use dd_blocks::{Plan, What};

/// The space in which a task runs.
fn place_of(plan: &Plan, task: u32) -> u32
    requires well { IsWellFormed plan.now }
    requires task { IsNumberIn plan.now.tasks task }
    ensures { result ≡ place_of plan.now task }
{
    plan.proc(plan.task(task).proc).space
}

/// How many elements all arrays have.
pub(crate) fn element_count(plan: &Plan) -> u64
    requires { IsWellFormed plan.now }
    ensures { result ≡ elements_in plan.now.arrays }
{
    match plan.arrays.as_slice().last() {
        Some(row) => row.first_element + u64::from(row.grid.rows) * u64::from(row.grid.cols),
        None => 0,
    }
}

/// The array of an element, by the element's number.
pub(crate) fn array_of(plan: &Plan, element: u64) -> u32
    requires well { IsWellFormed plan.now }
    requires element { element < elements_in plan.now.arrays }
    ensures array { IsNumberIn plan.now.arrays result }
    ensures behind { (array_row plan.now result).first_element ≤ element }
    ensures within { element - (array_row plan.now result).first_element < element_count (array_row plan.now result).grid }
{
    let mut array = plan.arrays.as_slice().len() as u32;
    while plan.array(array).first_element > element {
        array -= 1;
    }
    array
}

/// Whether a statement runs a region.
fn runs(what: &What, region: u32) -> bool
    ensures { result ≡ runs_region region what.now }
{
    match what {
        What::Region(run) => *run == region,
        _ => false,
    }
}

/// The number of the row that runs a region, or where there is none, of the row that comes next.
fn row_of_region(plan: &Plan, region: u32) -> u32
    requires { IsWellFormed plan.now }
    ensures value { result ≡ row_of_region plan.now region }
    ensures some { 1 ≤ result }
    ensures within { result ≤ length plan.now.statements + 1 }
{
    let rows = plan.statements.as_slice();
    for i in 0..rows.len() {
        if runs(&rows[i].what, region) {
            return i as u32 + 1;
        }
    }
    rows.len() as u32 + 1
}

/// The home of a block when a region begins.
pub(crate) fn home_in_region(plan: &Plan, region: u32, block: u32) -> u32
    requires well { IsWellFormed plan.now }
    requires block { IsNumberIn plan.now.blocks block }
    ensures { result ≡ home_in_region plan.now region block }
{
    plan.home_before(row_of_region(plan, region), block)
}

/// Where a version comes from: the space of its task where that is of the region, or else the home.
pub(crate) fn source_in(plan: &Plan, region: u32, home: u32, version: u32) -> u32
    requires well { IsWellFormed plan.now }
    requires version { version ≤ length plan.now.tasks }
    ensures { result ≡ cond (list_any (λ t. nat_eq t version) (tasks_in plan.now region)) (place_of plan.now version) home }
{
    if version != 0 && plan.task(version).region == region {
        place_of(plan, version)
    } else {
        home
    }
}
