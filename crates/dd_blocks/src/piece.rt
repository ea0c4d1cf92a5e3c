//! The pieces that a length is cut into.
ghost use Rattle.std.specs.Prelude.{◌≡◌, ◌<◌, ◌*◌};
ghost use Rattle.dd_blocks.specs.Grids.{piece_len};

/// The length of a piece, by its number from 0, where a length is cut into pieces of one size. The last one may
/// be shorter.
pub fn piece_len(length: u32, size: u32, piece: u64) -> u64
    requires { piece * size < length }
    ensures { result ≡ piece_len length size piece }
{
    let size = u64::from(size);
    let left = u64::from(length) - piece * size;
    size.min(left)
}
