//! The script of a journal.
ghost use Rattle.std.specs.Prelude.{IfOk};
ghost use Rattle.dd_blocks.specs.WellFormed.{IsWellFormed};

use anyhow::{Result, bail};
use dd_blocks::Plan;
use dd_blocks::limits::TEXT_LIMIT;
use dd_check::{AcceptFault, accept};
use std::alloc::Global;

/// The Plan of a script, or its first fault as an error.
pub fn plan_of(alloc: Global, script: &[u8]) -> Result<Plan>
    ensures { IfOk result IsWellFormed }
{
    if script.len() as u64 > TEXT_LIMIT {
        bail!("line 0: TooLong {TEXT_LIMIT} 0");
    }
    match accept(alloc, script) {
        Ok(plan) => Ok(plan),
        Err(AcceptFault::Script(fault)) => {
            let (line, kind, a, b) = (fault.line, fault.kind, fault.a, fault.b);
            bail!("line {line}: {kind:?} {a} {b}")
        }
        Err(AcceptFault::Memory) => bail!("out of memory"),
    }
}
