ghost use Rattle.std.specs.Prelude.{◌≡◌, ◌≤◌, OnOk, OnErr};
ghost use Rattle.std.specs.Io.KnownBytes.{Appends};
ghost use Rattle.dd_causes.specs.Counts.{FailsOnlyIfRose};
ghost use Rattle.dd_causes.specs.Appended.{AppendsFront};

use crate::fault::IoFault;
use crate::sink::Sink;

/// Writes all of the bytes, in as many calls as the sink wants.
///
/// # Errors
/// A fault of the sink. A front of the bytes was appended then.
pub fn write_all<K: Sink>(out: &mut K, bytes: &[u8]) -> Result<(), IoFault>
    ensures all { OnOk result (Appends (K.taken out.old) (K.taken out.new) bytes.now) }
    ensures front { OnErr result (AppendsFront (K.taken out.old) (K.taken out.new) bytes.now) }
    ensures cause { FailsOnlyIfRose result (K.faults out.old) (K.faults out.new) }
    ensures kept { OnOk result (K.faults out.new ≡ K.faults out.old) }
    ensures later { K.faults out.old ≤ K.faults out.new }
{
    let mut rest = bytes;
    while !rest.is_empty() {
        let taken = out.write(rest)?;
        rest = &rest[taken..];
    }
    Ok(())
}
