ghost use Rattle.std.specs.Prelude.{◌≡◌, ◌≤◌, OnOk, OnErr};
ghost use Rattle.std.specs.List.{flat_map};
ghost use Rattle.std.specs.Io.KnownBytes.{Appends};
ghost use Rattle.dd_causes.specs.Counts.{FailsOnlyIfRose};
ghost use Rattle.dd_causes.specs.Appended.{AppendsFront};

use crate::fault::IoFault;
use crate::sink::Sink;
use crate::writing::write_all;

/// Writes pieces of a text one after the other.
///
/// # Errors
/// A fault of the sink. A front of the text was appended then.
pub fn write_pieces<K: Sink>(out: &mut K, pieces: &[&[u8]]) -> Result<(), IoFault>
    ensures all { OnOk result (Appends (K.taken out.old) (K.taken out.new) (flat_map (λ p. p.now) pieces.now)) }
    ensures front { OnErr result (AppendsFront (K.taken out.old) (K.taken out.new) (flat_map (λ p. p.now) pieces.now)) }
    ensures cause { FailsOnlyIfRose result (K.faults out.old) (K.faults out.new) }
    ensures kept { OnOk result (K.faults out.new ≡ K.faults out.old) }
    ensures later { K.faults out.old ≤ K.faults out.new }
{
    for piece in pieces {
        write_all(out, piece)?;
    }
    Ok(())
}
