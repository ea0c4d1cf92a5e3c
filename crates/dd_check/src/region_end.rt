//! The end of a region.
ghost use Rattle.std.specs.Prelude.{◌≡◌, ◌≢◌, ◌+◌, ◌<◌, ◌^◌, ◌++◌, ℕ, All, IfOk, List, None, OnOk, length, map};
ghost use Rattle.dd_script.specs.declared.statement.Statement.TheVariants as statement;
ghost use Rattle.dd_check.specs.Drafts.{Counts, IsSoundDraft, above_of};
ghost use Rattle.dd_check.specs.Effects.{Enters};
ghost use Rattle.dd_check.specs.RegionEnd.{reopened};
ghost use Rattle.dd_check.specs.Rows.{with_found};

use crate::draft::Draft;
use crate::opened::Opened;
use crate::row::add_row;
use dd_alias::deps;
use dd_blocks::{TaskRow, What};
use dd_views::Items;
use std::alloc::{AllocError, Global};

/// Places in a region as numbers of the whole script: so many tasks stand before it.
fn numbers(alloc: Global, before: u32, places: &[u32]) -> Result<Items<u32>, AllocError>
    requires { All (λ place. before + place < 2 ^ 32) places.now }
    ensures { IfOk result (λ found. found ≡ map (λ place. before + place) places.now) }
{
    let mut found = Vec::with_capacity(alloc, places.len())?;
    for place in places {
        found.push(before + place)?;
    }
    Ok(Items::of(found))
}

/// Adds the tasks of a region with their dependencies: so many tasks stand before it.
fn add_tasks(
    alloc: Global,
    tasks: &mut Items<TaskRow>,
    before: u32,
    region: Vec<TaskRow>,
    found: &[Items<u32>],
) -> Result<(), AllocError>
    requires each { length found.now ≡ length region.items }
    requires fits { All (λ (places : List ℕ). All (λ place. before + place < 2 ^ 32) places) found.now }
    ensures { OnOk result (tasks.new ≡ tasks.old ++ with_found before region.items found.now) }
{
    let mut place = 0;
    for mut task in region {
        task.deps = numbers(alloc, before, found[place].as_slice())?;
        place += 1;
        tasks.push(task)?;
    }
    Ok(())
}

/// The region that is open ends on a line.
pub(crate) fn close_region(alloc: Global, draft: &mut Draft, line: u32) -> Result<(), AllocError>
    requires sound { IsSoundDraft draft.old }
    requires opened { draft.old.opened ≢ None }
    ensures entered { OnOk result (Enters line (above_of draft.old) statement.End (above_of draft.new)) }
    ensures counts { OnOk result (Counts draft.new) }
{
    let Some(region) = draft.opened.take() else {
        unreachable!()
    };
    join(alloc, draft, line, region)
}

/// Adds the tasks of a region that was open, and the row that runs it.
fn join(alloc: Global, draft: &mut Draft, line: u32, region: Opened) -> Result<(), AllocError>
    requires sound { IsSoundDraft (reopened region draft.old) }
    requires closed { draft.old.opened ≡ None }
    ensures entered { OnOk result (Enters line (above_of (reopened region draft.old)) statement.End (above_of draft.new)) }
    ensures counts { OnOk result (Counts draft.new) }
{
    let found = deps(alloc, &region.tasks)?;
    let before = draft.plan.tasks.as_slice().len() as u32;
    add_tasks(alloc, &mut draft.plan.tasks, before, region.tasks, &found)?;
    let number = draft.regions + 1;
    draft.regions = number;
    draft.touches += region.touches;
    add_row(draft, line, What::Region(number))?;
    Ok(())
}
