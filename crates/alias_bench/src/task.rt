//! Tasks by their accesses.
ghost use Rattle.std.specs.Prelude.{◌≡◌};

use dd_blocks::{AccessRow, TaskRow};
use dd_kernels::Kernel;
use dd_views::Items;
use std::alloc::Global;

/// A task with these accesses. Nothing else of it matters here.
pub fn task_with(alloc: Global, accesses: Vec<AccessRow>) -> TaskRow
    ensures { result.accesses ≡ accesses.items }
{
    TaskRow {
        line: 0,
        region: 1,
        kernel: Kernel::Gemm,
        scalar: 0,
        accesses: Items::of(accesses),
        proc: 1,
        deps: Items::of(Vec::new(alloc)),
        blocks: Items::of(Vec::new(alloc)),
        charge: 0,
    }
}
