//! The buffers of a task, and what they get of a block.
ghost use Rattle.std.specs.Prelude.{◌≡◌, ◌≢◌, ◌<◌, ◌^◌, ◌*◌, length, IfOk, OnOk, [], ◌∷◌, ◌++◌, map};
ghost use Rattle.std.specs.List.{All};
ghost use Rattle.dd_kernels.specs.Shapes.{size_of};
ghost use Rattle.dd_views.specs.IndexList.{index_list};
ghost use Rattle.dd_views.specs.Views.{IsView, IsViewOf};
ghost use Rattle.dd_blocks.specs.declared.access_row.AccessRow.{AccessRow};
ghost use Rattle.dd_blocks.specs.Numbered.{IsNumberIn, array_row};
ghost use Rattle.dd_blocks.specs.Tasks.{kernel_shape, shape_in, shapes_in};
ghost use Rattle.dd_blocks.specs.WellFormed.{IsWellFormed};
ghost use Rattle.dd_meaning.specs.Lists.{lists_of};
ghost use Rattle.dd_stamps.specs.Found.{HasCollected, HaveCollected, IsSmallView};

use crate::rows::reads;
use crate::stamped::Stamped;
use dd_blocks::AccessRow;
use dd_kernels::{Args, Shape};
use dd_views::View;
use std::alloc::{AllocError, Global};

/// A buffer for each access, with its shape, all of zeros.
///
/// # Errors
/// Want of memory.
pub(crate) fn buffers(alloc: Global, accesses: &[AccessRow]) -> Result<Args, AllocError>
    requires { All (λ (a : AccessRow). IsSmallView a.view) accesses.now }
    ensures shapes { IfOk result (λ args. args.shapes.items ≡ shapes_in accesses.now) }
    ensures filled { IfOk result (λ args. map length (lists_of args.bufs.items) ≡ map size_of (shapes_in accesses.now)) }
{
    let mut shapes = Vec::new(alloc);
    let mut bufs = Vec::new(alloc);
    for access in accesses {
        shapes.push(shape_of(&access.view))?;
        bufs.push(vec![in alloc; 0; access.view.len() as usize]?)?;
    }
    Ok(Args { shapes, bufs })
}

/// The shape of an access, for a kernel.
fn shape_of(view: &View) -> Shape
    requires { IsSmallView view.now }
    ensures { result ≡ kernel_shape view.now }
{
    let shape = view.shape();
    Shape {
        rows: shape.rows,
        cols: shape.cols,
    }
}

/// Fills the places of a block in the buffers of the accesses that read.
pub(crate) fn gather_all<'p>(copy: &Stamped<'p>, accesses: &[AccessRow], bufs: &mut [Vec<i64>])
    requires well { IsWellFormed copy.now.plan.now }
    requires named { All (λ (a : AccessRow). IsNumberIn copy.now.plan.now.arrays a.view.array) accesses.now }
    requires views { All (λ (a : AccessRow). IsViewOf (shape_in (array_row copy.now.plan.now a.view.array)) a.view) accesses.now }
    requires filled { map length (lists_of bufs.old) ≡ map size_of (shapes_in accesses.now) }
    ensures { HaveCollected copy.now.plan.now copy.now.block copy.now.values.items accesses.now (lists_of bufs.old) (lists_of bufs.new) }
{
    for k in 0..accesses.len() {
        collect_one(copy, accesses[k], &mut bufs[k]);
    }
}

/// The same of one access.
fn collect_one<'p>(copy: &Stamped<'p>, access: AccessRow, buf: &mut [i64])
    requires well { IsWellFormed copy.now.plan.now }
    requires named { IsNumberIn copy.now.plan.now.arrays access.view.array }
    requires view { IsViewOf (shape_in (array_row copy.now.plan.now access.view.array)) access.view }
    requires long { length buf.old ≡ length (index_list access.view) }
    ensures { HasCollected copy.now.plan.now copy.now.block copy.now.values.items access buf.old buf.new }
{
    if reads(access.mode) {
        copy.gather(&access.view, buf);
    }
}
