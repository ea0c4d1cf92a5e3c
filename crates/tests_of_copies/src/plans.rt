//! Plans of scripts, and places of their blocks.
ghost use Rattle.std.specs.Prelude.{◌≡◌, ◌↔◌, ◌-◌, ◌^◌, ◌<◌, ◌≤◌, length, All, IsTrue, IfOk};
ghost use Rattle.dd_blocks.specs.Limits.{text_limit};
ghost use Rattle.dd_blocks.specs.WellFormed.{IsWellFormed};

use dd_blocks::Plan;
use dd_check::accept;
use dd_spans::Runs;
use std::alloc::{AllocError, Global};
use std::process::Abort;

/// A column of four elements in one block, with 1 to 4 in them.
pub(crate) const ONE_BLOCK: &str = "space m 4096
proc p m
array A 4 1 4 1 iota
";

/// A row of four elements in one block, and a task whose arguments share two of them.
pub(crate) const OVERLAPPING: &str = "array V 1 4 1 4 iota
region
task swap InOut(V[1,1:3]) InOut(V[1,2:4])
end
";

/// An array of four blocks, the last smaller, with 1 to 15 in it.
pub(crate) const FOUR_BLOCKS: &str = "array A 5 3 3 2 iota
";

/// A block whose values go to a slot in three pieces.
pub(crate) const THREE_PIECES: &str = "array A 1025 1 1025 1 lcg 7
";

/// The Plan of a script, which has no fault.
pub(crate) fn plan_of(rt: &impl Abort, alloc: Global, script: &str) -> Plan
    requires { length script.now ≤ text_limit }
    ensures { IsWellFormed result }
{
    match accept(alloc, script.as_bytes()) {
        Ok(plan) => plan,
        Err(fault) => panic!(rt; "{fault:?}"),
    }
}

/// Places of a list, which are below a size.
pub(crate) fn places_of(rt: &impl Abort, alloc: Global, list: &[u64], size: u64) -> Runs
    ensures { All (λ p. p < size) result.list }
{
    assert!(rt; are_below(list, u64::MAX));
    assert!(rt; are_below(list, size));
    sorted(alloc, list, size).expect(rt, "memory")
}

fn sorted(alloc: Global, list: &[u64], size: u64) -> Result<Runs, AllocError>
    requires small { All (λ p. p < 2 ^ 64 - 1) list.now }
    requires below { All (λ p. p < size) list.now }
    ensures { IfOk result (λ runs. All (λ p. p < size) runs.list) }
{
    Runs::of_list(alloc, list)
}

fn are_below(list: &[u64], size: u64) -> bool
    ensures { IsTrue result ↔ All (λ p. p < size) list.now }
{
    list.iter().all(|place| *place < size)
}
