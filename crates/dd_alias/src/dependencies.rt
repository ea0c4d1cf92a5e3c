//! Which tasks must wait for which.
ghost use Rattle.std.specs.Prelude.{◌≡◌, ◌⊎◌, ℕ, ◌+◌, ◌^◌, ◌<◌, length, All, IfOk, OnOk};
ghost use Rattle.dd_views.specs.declared.shape.Shape.{Shape};
ghost use Rattle.dd_blocks.specs.Conflicts.{AreDependencies};
ghost use Rattle.dd_alias.specs.Dependencies.{AreDependenciesOfAll};
ghost use Rattle.dd_alias.specs.Extents.{AreShown};
ghost use Rattle.dd_alias.specs.Shapes.{HaveOneShape};
ghost use Rattle.dd_alias.specs.Waits.{AreOfTasks, AreWaits, IsEarlier};

use crate::extent::Extent;
use crate::extents::{add_extents, extents_of};
use crate::index::Index;
use crate::piece::PIECE_EXTENTS;
use crate::waits::{rise, waits_among};
use dd_blocks::TaskRow;
use dd_views::Items;
use std::alloc::{AllocError, Global};

/// For each task, in order, the places of the earlier ones that it is in conflict with, rising, where all views of an
/// array are of one shape. Places are from 1.
pub fn deps(alloc: Global, tasks: &[TaskRow]) -> Result<Vec<Items<u32>>, AllocError>
    requires shapes { HaveOneShape tasks.now }
    requires few { length tasks.now < 2 ^ 32 }
    ensures { IfOk result (λ lists. AreDependenciesOfAll tasks.now lists.items) }
{
    let index = Index::of(alloc, &extents_of(alloc, tasks)?)?;
    let mut extents = Vec::new(alloc);
    let mut lists = Vec::with_capacity(alloc, tasks.len())?;
    for place in 0..tasks.len() {
        lists.push(deps_at(alloc, tasks, place, &index, &mut extents)?)?;
    }
    Ok(lists)
}

/// The places of the earlier tasks that the one at a place, here from 0, is in conflict with, by the extents of those. Its
/// own are added to them.
fn deps_at<'t>(
    alloc: Global,
    tasks: &'t [TaskRow],
    place: usize,
    index: &Index<'t>,
    extents: &mut Vec<Extent<'t>>,
) -> Result<Items<u32>, AllocError>
    requires shapes { HaveOneShape tasks.now }
    requires few { length tasks.now < 2 ^ 32 }
    requires place { place < length tasks.now }
    requires index { AreOfTasks tasks.now (length tasks.now) index.now }
    requires extents { AreOfTasks tasks.now place extents.old.items }
    ensures found { IfOk result (AreDependencies tasks.now (place + 1)) }
    ensures added { OnOk result (AreOfTasks tasks.now (place + 1) extents.new.items) }
{
    let number = place as u32 + 1;
    let before = extents.len();
    add_extents(number, tasks[place].accesses.as_slice(), extents)?;
    let (earlier, own) = extents.as_slice().split_at(before);
    let mut found = waits_of(alloc, index, earlier, own, number)?;
    rise(&mut found);
    Ok(Items::of(found))
}

/// The numbers of the tasks that one must wait for, as often as they are found. Where many extents may clash with its own
/// it is faster to go through all earlier ones: these stand in the order of the tasks, and the numbers so, too.
fn waits_of<'t>(
    alloc: Global,
    index: &Index<'t>,
    earlier: &[Extent<'t>],
    own: &[Extent<'t>],
    number: u32,
) -> Result<Vec<u32>, AllocError>
    requires shapes { (shape_at : ℕ → Shape) × AreShown shape_at index.now × AreShown shape_at earlier.now × AreShown shape_at own.now }
    requires earlier { All (IsEarlier number) earlier.now }
    ensures { IfOk result (λ found. AreWaits index.now own.now number found.items ⊎ AreWaits earlier.now own.now number found.items) }
{
    let limit = earlier.len() / (8 * PIECE_EXTENTS);
    if let Some(found) = index.waits(alloc, own, number, limit)? {
        return Ok(found);
    }
    waits_among(alloc, earlier, own, number)
}
