ghost use Rattle.std.specs.Prelude.{◌≡◌, ◌≤◌, OnOk, OnErr};
ghost use Rattle.std.specs.Io.KnownBytes.{Appends};
ghost use Rattle.dd_causes.specs.Counts.{FailsOnlyIfRose};
ghost use Rattle.dd_causes.specs.Appended.{AppendsFront};
ghost use Rattle.dd_session.specs.Messages.{fault_text, message_of};

use crate::kind_name::kind_name;
use crate::status::Status;
use dd_check::Fault;
use dd_io::{IoFault, Sink, write_pieces};
use itoa::Buffer;

/// Writes the fault of a script: its line, its kind and both numbers.
fn report_fault<E: Sink>(fault: Fault, err: &mut E) -> Result<(), IoFault>
    ensures all { OnOk result (Appends (E.taken err.old) (E.taken err.new) (fault_text fault)) }
    ensures front { OnErr result (AppendsFront (E.taken err.old) (E.taken err.new) (fault_text fault)) }
    ensures cause { FailsOnlyIfRose result (E.faults err.old) (E.faults err.new) }
    ensures kept { OnOk result (E.faults err.new ≡ E.faults err.old) }
    ensures later { E.faults err.old ≤ E.faults err.new }
{
    let mut line = Buffer::new();
    let mut a = Buffer::new();
    let mut b = Buffer::new();
    let line = line.format(fault.line).as_bytes();
    let a = a.format(fault.a).as_bytes();
    let b = b.format(fault.b).as_bytes();
    let kind = kind_name(fault.kind);
    write_pieces(
        err,
        &[b"ddeps: line ", line, b": ", kind, b" ", a, b" ", b, b"\n"],
    )
}

/// Writes what a status says to the error output. It takes no memory, and for a run that is done it calls nothing.
pub fn report<E: Sink>(status: Status, err: &mut E) -> Result<(), IoFault>
    ensures quiet { status ≡ Status.Done → err.new ≡ err.old }
    ensures all { OnOk result (Appends (E.taken err.old) (E.taken err.new) (message_of status)) }
    ensures front { OnErr result (AppendsFront (E.taken err.old) (E.taken err.new) (message_of status)) }
    ensures cause { FailsOnlyIfRose result (E.faults err.old) (E.faults err.new) }
    ensures kept { OnOk result (E.faults err.new ≡ E.faults err.old) }
    ensures later { E.faults err.old ≤ E.faults err.new }
{
    match status {
        Status::Done => Ok(()),
        Status::Memory => write_pieces(err, &[b"ddeps: out of memory\n"]),
        Status::Words => write_pieces(
            err,
            &[b"usage: ddeps [--workers N] [--journal] run|plain|gen N|demo N\n"],
        ),
        Status::Script(fault) => report_fault(fault, err),
        Status::ReadFault => write_pieces(err, &[b"ddeps: read fault\n"]),
        Status::WriteFault => write_pieces(err, &[b"ddeps: write fault\n"]),
        Status::DiskFault => write_pieces(err, &[b"ddeps: disk fault\n"]),
    }
}
