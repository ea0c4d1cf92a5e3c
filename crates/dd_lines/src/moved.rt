ghost use Rattle.std.specs.Prelude.{◌≡◌, ◌≤◌, OnOk, OnErr};
ghost use Rattle.std.specs.Io.KnownBytes.{Appends};
ghost use Rattle.dd_causes.specs.Appended.{AppendsFront};
ghost use Rattle.dd_causes.specs.Counts.{FailsOnlyIfRose};
ghost use Rattle.dd_meaning.specs.Text.{moved_line};

use dd_io::{IoFault, Sink, write_pieces};
use itoa::Buffer;

/// Writes how many elements moved so far. It takes no memory.
///
/// # Errors
/// A fault of the sink. A prefix of the line was written then.
pub fn moved_line<O: Sink>(moved: u64, out: &mut O) -> Result<(), IoFault>
    ensures all { OnOk result (Appends (O.taken out.old) (O.taken out.new) (moved_line moved)) }
    ensures front { OnErr result (AppendsFront (O.taken out.old) (O.taken out.new) (moved_line moved)) }
    ensures cause { FailsOnlyIfRose result (O.faults out.old) (O.faults out.new) }
    ensures kept { OnOk result (O.faults out.new ≡ O.faults out.old) }
    ensures later { O.faults out.old ≤ O.faults out.new }
{
    let mut buffer = Buffer::new();
    let number = buffer.format(moved).as_bytes();
    write_pieces(out, &[b"moved ", number, b"\n"])
}
