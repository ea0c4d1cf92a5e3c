ghost use Rattle.std.specs.Prelude.{◌≡◌, ℤ, List, ◌+◌, ◌*◌, ◌≤◌, ◌++◌, true, length, take, vec_len, IfOk, OnOk, IsErrOf};
ghost use Rattle.std.specs.Int.{w64};
ghost use Rattle.std.specs.Int.RustNames.{FitsSigned};
ghost use Rattle.std.specs.List.{All};
ghost use Rattle.dd_causes.specs.Counts.{Rose};
ghost use Rattle.dd_store.specs.Encoded.{encoded};

use crate::codec::{decode, encode};
use crate::fault::StoreFault;
use crate::store::Slot;
use std::alloc::Global;

// How many values go to a slot, or come from it, at once.
const PIECE: usize = 512;

/// Adds the bytes of values at the end of a slot, in pieces of at most 512 values. It takes memory for one piece.
///
/// # Errors
/// `Disk`, a fault that the slot has counted, and want of memory. The slot's content is anything then.
pub fn append_values<S: Slot>(alloc: Global, slot: &mut S, values: &[i64]) -> Result<(), StoreFault>
    ensures added { S.tells ≡ true → OnOk result (S.content slot.new ≡ S.content slot.old ++ encoded values.now) }
    ensures fit { OnOk result (All (FitsSigned w64) values.now) }
    ensures cause { IsErrOf result StoreFault.Disk → Rose (S.faults slot.old) (S.faults slot.new) }
    ensures kept { (¬ IsErrOf result StoreFault.Disk) → S.faults slot.new ≡ S.faults slot.old }
    ensures later { S.faults slot.old ≤ S.faults slot.new }
{
    let mut bytes = Vec::new(alloc);
    let mut left = values;
    while !left.is_empty() {
        let (piece, rest) = left.split_at(left.len().min(PIECE));
        append_piece(slot, piece, &mut bytes)?;
        left = rest;
    }
    Ok(())
}

// Adds the bytes of one piece, by way of a buffer.
fn append_piece<S: Slot>(slot: &mut S, piece: &[i64], bytes: &mut Vec<u8>) -> Result<(), StoreFault>
    ensures added { S.tells ≡ true → OnOk result (S.content slot.new ≡ S.content slot.old ++ encoded piece.now) }
    ensures fit { OnOk result (All (FitsSigned w64) piece.now) }
    ensures cause { IsErrOf result StoreFault.Disk → Rose (S.faults slot.old) (S.faults slot.new) }
    ensures kept { (¬ IsErrOf result StoreFault.Disk) → S.faults slot.new ≡ S.faults slot.old }
    ensures later { S.faults slot.old ≤ S.faults slot.new }
{
    bytes.clear();
    encode(piece, bytes)?;
    slot.append(bytes)
}

/// The first `count` values of a slot, read in pieces of at most 512 values. Beside the values it takes memory for one piece.
///
/// # Errors
/// `Disk`, a fault that the slot has counted, and want of memory. The slot's content stays in any case.
pub fn read_values<S: Slot>(
    alloc: Global,
    slot: &mut S,
    count: usize,
) -> Result<Vec<i64>, StoreFault>
    requires there { S.tells ≡ true → 8 * count ≤ length (S.content slot.old) }
    ensures len { IfOk result (λ values. vec_len values ≡ count) }
    ensures values { S.tells ≡ true → (xs : List ℤ) → S.content slot.old ≡ encoded xs → All (FitsSigned w64) xs
        → IfOk result (λ values. values.items ≡ take count xs) }
    ensures content { S.content slot.new ≡ S.content slot.old }
    ensures cause { IsErrOf result StoreFault.Disk → Rose (S.faults slot.old) (S.faults slot.new) }
    ensures kept { (¬ IsErrOf result StoreFault.Disk) → S.faults slot.new ≡ S.faults slot.old }
    ensures later { S.faults slot.old ≤ S.faults slot.new }
{
    let mut bytes = [0u8; 8 * PIECE];
    let mut numbers = [0i64; PIECE];
    let mut values = Vec::with_capacity(alloc, count)?;
    while values.len() < count {
        let more = (count - values.len()).min(PIECE);
        read_piece(
            slot,
            &mut bytes[..8 * more],
            &mut numbers[..more],
            &mut values,
        )?;
    }
    Ok(values)
}

// Adds the values that stand in the slot behind those that were read, as many as `numbers` has room for. Both buffers are overwritten.
fn read_piece<S: Slot>(
    slot: &mut S,
    bytes: &mut [u8],
    numbers: &mut [i64],
    values: &mut Vec<i64>,
) -> Result<(), StoreFault>
    requires there { S.tells ≡ true → 8 * vec_len values.old + length bytes.old ≤ length (S.content slot.old) }
    requires long { length bytes.old ≡ 8 * length numbers.old }
    ensures len { OnOk result (vec_len values.new ≡ vec_len values.old + length numbers.old) }
    ensures values { S.tells ≡ true → (xs : List ℤ) → S.content slot.old ≡ encoded xs → All (FitsSigned w64) xs
        → values.old.items ≡ take (vec_len values.old) xs
        → OnOk result (values.new.items ≡ take (vec_len values.new) xs) }
    ensures content { S.content slot.new ≡ S.content slot.old }
    ensures cause { IsErrOf result StoreFault.Disk → Rose (S.faults slot.old) (S.faults slot.new) }
    ensures kept { (¬ IsErrOf result StoreFault.Disk) → S.faults slot.new ≡ S.faults slot.old }
    ensures later { S.faults slot.old ≤ S.faults slot.new }
{
    slot.read(size_of_val(values.as_slice()) as u64, bytes)?;
    decode(bytes, numbers);
    values.extend_from_slice(numbers)?;
    Ok(())
}
