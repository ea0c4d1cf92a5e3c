//! The script as a whole.
ghost use Rattle.std.specs.Prelude.{◌+◌, ◌<◌, ◌≤◌, length, IfErr, IfOk, OnOk};
ghost use Rattle.dd_blocks.specs.Limits.{text_limit};
ghost use Rattle.dd_blocks.specs.Lines.{LinesRise};
ghost use Rattle.dd_blocks.specs.WellFormed.{IsWellFormed};
ghost use Rattle.dd_check.specs.Chain.{IsRefusedOr};
ghost use Rattle.dd_check.specs.Drafts.{Counts, above_of};
ghost use Rattle.dd_check.specs.Faults.{IsAcceptFault, IsOnlyPlanOf, IsTaken};
ghost use Rattle.dd_check.specs.Sound.{IsSound};

use crate::admission::admit;
use crate::draft::Draft;
use crate::fault::{AcceptFault, Fault};
use crate::kind::Kind;
use crate::line::said;
use crate::lines::first_line;
use crate::machine::settle;
use dd_blocks::Plan;
use std::alloc::Global;

/// Reads a line below so many lines above it.
fn read_line(alloc: Global, draft: &mut Draft, above: u32, bytes: &[u8]) -> Result<(), AcceptFault>
    requires sound { IsSound above (above_of draft.old) }
    requires counts { Counts draft.old }
    requires few { above < text_limit }
    requires short { length bytes.now ≤ text_limit }
    ensures taken { OnOk result (IsTaken (above + 1) (above_of draft.old) bytes.now (above_of draft.new)) }
    ensures counts { OnOk result (Counts draft.new) }
    ensures fault { IfErr result (λ e. IsRefusedOr e (above + 1) (above_of draft.old) bytes.now) }
{
    let line = above + 1;
    match said(alloc, line, bytes)? {
        Some(x) => admit(alloc, draft, line, x),
        None => Ok(()),
    }
}

/// The Plan of a script, which is well formed, or its first fault.
pub fn accept(alloc: Global, text: &[u8]) -> Result<Plan, AcceptFault>
    requires { length text.now ≤ text_limit }
    ensures plan { IfOk result (IsOnlyPlanOf text.now) }
    ensures well_formed { IfOk result IsWellFormed }
    ensures lines { IfOk result LinesRise }
    ensures fault { IfErr result (λ e. IsAcceptFault e text.now) }
{
    let mut draft = Draft::new(alloc);
    let mut rest = text;
    let mut above = 0;
    while !rest.is_empty() {
        let (line, below) = first_line(rest);
        read_line(alloc, &mut draft, above, line)?;
        above += 1;
        rest = below;
    }
    if let Some(region) = &draft.opened {
        return Err(AcceptFault::Script(Fault::plain(region.line, Kind::UnendedRegion)));
    }
    settle(alloc, &mut draft)?;
    Ok(draft.plan)
}
