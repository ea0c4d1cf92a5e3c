//! The calls that are measured.
ghost use Rattle.std.specs.Prelude.{◌≡◌, ◌^◌, ◌<◌, length};
ghost use Rattle.dd_views.specs.Views.{IsView};
ghost use Rattle.dd_alias.specs.Shapes.{HaveOneShape};

use dd_alias::{deps, overlap};
use dd_blocks::TaskRow;
use dd_views::View;
use std::alloc::{AllocError, Global};

/// How many dependencies were found, in so many runs.
pub fn ask_deps(alloc: Global, times: u32, tasks: &[TaskRow]) -> Result<u64, AllocError>
    requires shapes { HaveOneShape tasks.now }
    requires few { length tasks.now < 2 ^ 32 }
{
    let mut found = 0u64;
    for _ in 0..times {
        for list in &deps(alloc, tasks)? {
            found = found.wrapping_add(list.as_slice().len() as u64);
        }
    }
    Ok(found)
}

/// In how many of so many runs the views overlap. Each run exchanges the views, so that no call stands for another.
pub fn ask_overlap(times: u32, a: &View, b: &View) -> u64
    requires a { IsView a.now }
    requires b { IsView b.now }
    requires height { a.now.array ≡ b.now.array → a.now.height ≡ b.now.height }
{
    let mut found = 0u64;
    for run in 0..times {
        let both = if run % 2 == 0 {
            overlap(a, b)
        } else {
            overlap(b, a)
        };
        if both {
            found = found.wrapping_add(1);
        }
    }
    found
}
