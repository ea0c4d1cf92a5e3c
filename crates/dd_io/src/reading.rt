ghost use Rattle.std.specs.Prelude.{◌≡◌, ℕ, ◌≤◌, vec_len, IfOk, IfErr, IsErrOf};
ghost use Rattle.dd_causes.specs.Counts.{Rose};
ghost use Rattle.dd_io.specs.Taken.{ReadsToEnd, EndsEarly};
ghost use Rattle.dd_io.specs.declared.reading.ReadEnd.TheVariants.{ReadFault, Memory};

use crate::fault::IoFault;
use crate::source::Source;
use std::alloc::{AllocError, Global};

/// Why a source was not read to its end.
#[derive(Clone, Copy, Debug, PartialEq, Eq)]
pub enum ReadEnd {
    /// It has more bytes than the limit allows.
    TooLong,
    /// A read failed.
    ReadFault,
    /// Want of memory.
    Memory,
}

impl From<IoFault> for ReadEnd {
    ghost from_gives = { λ _ end. end ≡ ReadFault };

    fn from(_fault: IoFault) -> ReadEnd {
        ReadEnd::ReadFault
    }
}

impl From<AllocError> for ReadEnd {
    ghost from_gives = { λ _ end. end ≡ Memory };

    fn from(_error: AllocError) -> ReadEnd {
        ReadEnd::Memory
    }
}

/// How many bytes a call asks for at most.
const PIECE: usize = 8192;

/// Reads a source to its end, if that comes within `limit` bytes.
///
/// It takes at most `limit + 1` bytes.
///
/// # Errors
/// `TooLong` exactly where `limit + 1` bytes came before an end or a fault; `ReadFault` where a read failed;
/// want of memory. The bytes that were read are lost then.
pub fn read_all<S: Source>(alloc: Global, src: &mut S, limit: usize) -> Result<Vec<u8>, ReadEnd>
    ensures all { IfOk result (λ bytes. ReadsToEnd (S.left src.old) (S.left src.new) bytes.items) }
    ensures within { IfOk result (λ bytes. vec_len bytes ≤ limit) }
    ensures early { IfErr result (λ end. EndsEarly end (S.left src.old) (S.left src.new) limit) }
    ensures cause { IsErrOf result ReadEnd.ReadFault → Rose (S.faults src.old) (S.faults src.new) }
    ensures kept { (¬ IsErrOf result ReadEnd.ReadFault) → S.faults src.new ≡ S.faults src.old }
    ensures later { S.faults src.old ≤ S.faults src.new }
{
    let mut bytes = Vec::new(alloc);
    let mut piece = [0; PIECE];
    loop {
        let room = limit - bytes.len();
        // One byte more than there is room for tells that the source is too long.
        let most = room.min(PIECE - 1) + 1;
        let count = src.read(&mut piece[..most])?;
        if count == 0 {
            return Ok(bytes);
        }
        if count > room {
            return Err(ReadEnd::TooLong);
        }
        bytes.extend_from_slice(&piece[..count])?;
    }
}
