ghost use Rattle.std.specs.Prelude.{◌≡◌, ◌+◌, ◌≤◌, length};
ghost use Rattle.dd_store.specs.Slots.{piece};

/// Fills the buffer with the bytes from a place on.
pub(crate) fn copy_piece(bytes: &[u8], place: u64, buf: &mut [u8])
    requires { place + length buf.old ≤ length bytes.now }
    ensures { buf.new ≡ piece place (length buf.old) bytes.now }
{
    let first = place as usize;
    buf.copy_from_slice(&bytes[first..first + buf.len()]);
}
