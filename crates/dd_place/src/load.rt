//! How many tasks the processors have.
ghost use Rattle.std.specs.Prelude.{◌≡◌, ◌^◌, ◌<◌, ◌≤◌, length};
ghost use Rattle.dd_blocks.specs.Numbered.{IsNumberIn};
ghost use Rattle.dd_place.specs.Chosen.{IsBest, is_of, lighter};
ghost use Rattle.dd_place.specs.Loads.{IsLeastLoaded, candidates, tasks_on};

use dd_blocks::{Plan, ProcRow};

/// A processor and how many of the earlier tasks it has.
#[derive(Clone, Copy, Debug)]
struct Load {
    proc: u32,
    tasks: usize,
}

/// The processor with the fewest tasks among those of a space, or among all where it has none.
pub fn least_loaded_for(plan: &Plan, space: u32, earlier: &[u32]) -> u32
    requires some { 1 ≤ length plan.now.procs }
    requires few { length plan.now.procs < 2 ^ 32 }
    ensures least { IsLeastLoaded (candidates plan.now space) earlier.now result }
    ensures number { IsNumberIn plan.now.procs result }
{
    let procs = plan.procs.as_slice();
    if let Some(load) = least_loaded(procs, Some(space), earlier) {
        return load.proc;
    }
    match least_loaded(procs, None, earlier) {
        Some(load) => load.proc,
        None => unreachable!(),
    }
}

/// The processor with the fewest tasks among those of a space, or among all where no space is given.
fn least_loaded(procs: &[ProcRow], space: Option<u32>, earlier: &[u32]) -> Option<Load>
    requires { length procs.now < 2 ^ 32 }
    ensures { IsBest space procs.now earlier.now (length procs.now) result }
{
    let mut best: Option<Load> = None;
    for (i, row) in procs.iter().enumerate() {
        if is_of(space, row) {
            best = Some(lighter(best, load_of(earlier, i as u32 + 1)));
        }
    }
    best
}

fn is_of(space: Option<u32>, row: &ProcRow) -> bool
    ensures { result ≡ is_of space row.now }
{
    match space {
        Some(space) => row.space == space,
        None => true,
    }
}

/// The one of two loads that is kept.
fn lighter(best: Option<Load>, next: Load) -> Load
    ensures { result ≡ lighter best next }
{
    match best {
        Some(best) if best.tasks <= next.tasks => best,
        _ => next,
    }
}

fn load_of(earlier: &[u32], proc: u32) -> Load
    ensures proc { result.proc ≡ proc }
    ensures tasks { result.tasks ≡ tasks_on earlier.now result.proc }
{
    Load {
        proc,
        tasks: earlier.iter().filter(|p| **p == proc).count(),
    }
}
