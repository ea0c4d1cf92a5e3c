//! What a line of a script says, and the fault of one that says nothing.
ghost use Rattle.std.specs.Prelude.{◌<◌, ◌^◌, length, IfErr, IfOk};
ghost use Rattle.dd_script.specs.Reads.{Reads};
ghost use Rattle.dd_check.specs.Chain.{IsUnreadOr};
ghost use Rattle.dd_check.specs.Unread.{IsKindOf};

use crate::fault::{AcceptFault, Fault};
use crate::kind::Kind;
use dd_script::{Statement, statement_of};
use dd_tokens::{LineFault, tokens};
use std::alloc::Global;

/// The answer for a line that can't be read.
fn unread(line: u32, fault: LineFault) -> AcceptFault
    ensures { IsKindOf line fault result }
{
    match fault {
        LineFault::NotText => AcceptFault::Script(Fault::plain(line, Kind::NotText)),
        LineFault::BadForm => AcceptFault::Script(Fault::plain(line, Kind::BadForm)),
        LineFault::UnknownStatement => {
            AcceptFault::Script(Fault::plain(line, Kind::UnknownStatement))
        }
        LineFault::BadNumber => AcceptFault::Script(Fault::plain(line, Kind::BadNumber)),
        LineFault::UnknownPart => AcceptFault::Script(Fault::plain(line, Kind::UnknownPart)),
        LineFault::Memory => AcceptFault::Memory,
    }
}

/// What a line says.
pub(crate) fn said(alloc: Global, line: u32, bytes: &[u8]) -> Result<Option<Statement>, AcceptFault>
    requires { length bytes.now < 2 ^ 32 }
    ensures reads { IfOk result (λ x. Reads bytes.now x) }
    ensures fault { IfErr result (λ e. IsUnreadOr e line bytes.now) }
{
    let tokens = tokens(alloc, bytes).map_err(|fault| unread(line, fault))?;
    statement_of(alloc, bytes, &tokens).map_err(|fault| unread(line, fault))
}
