//! Plans of scripts.
ghost use Rattle.std.specs.Prelude.{◌≤◌, length};
ghost use Rattle.dd_blocks.specs.WellFormed.{IsWellFormed};
ghost use Rattle.dd_blocks.specs.Limits.{text_limit};

use dd_blocks::Plan;
use dd_check::accept;
use std::alloc::Global;
use std::process::Abort;

/// Two spaces; the second task reads half of what the first writes.
pub(crate) const TWO_SPACES: &str = "space m 4096
space n 4096
proc p m
proc q n
array A 4 1 4 1 zeros
array B 2 1 2 1 zeros
region
task fill 7 Out(A)
task copy Out(B) In(A[1:2,1])
end
moved
print B
";

/// Three rows of two elements in spaces of 64 bytes: the second is moved, and the first makes room for a task.
pub(crate) const THREE_ROWS: &str = "space m 64
space n 64
proc p m
proc q n
array A 1 2 1 2 iota
array B 1 2 1 2 zeros
array C 1 2 1 2 zeros
move B m
region
task fill 7 Out(C)
task addk 5 InOut(A)
end
print A
moved
";

/// The Plan of a script, which has no fault.
pub(crate) fn plan_of(rt: &impl Abort, alloc: Global, script: &str) -> Plan
    requires { length script.now ≤ text_limit }
    ensures { IsWellFormed result }
{
    match accept(alloc, script.as_bytes()) {
        Ok(plan) => plan,
        Err(fault) => panic!(rt; "{fault:?}"),
    }
}
