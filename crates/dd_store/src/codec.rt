ghost use Rattle.std.specs.Prelude.{◌≡◌, ◌+◌, ◌*◌, ◌≤◌, ℤ, List, ◌++◌, length, vec_len, vec_capacity, OnOk, OnErr};
ghost use Rattle.std.specs.Int.{w64};
ghost use Rattle.std.specs.Int.RustNames.{FitsSigned};
ghost use Rattle.std.specs.List.{All};
ghost use Rattle.dd_store.specs.Encoded.{bytes_of, encoded};

use std::alloc::AllocError;

/// Adds the bytes of values at the end: 8 for each, the highest first.
///
/// # Errors
/// Want of memory. The bytes are then as before.
pub fn encode(values: &[i64], bytes: &mut Vec<u8>) -> Result<(), AllocError>
    ensures added { OnOk result (bytes.new.items ≡ bytes.old.items ++ encoded values.now) }
    ensures fit { OnOk result (All (FitsSigned w64) values.now) }
    ensures err { OnErr result (bytes.new.items ≡ bytes.old.items) }
{
    bytes.reserve(size_of_val(values))?;
    put_all(values, bytes);
    Ok(())
}

// Adds the bytes of values to a vector that has room for them.
fn put_all(values: &[i64], bytes: &mut Vec<u8>)
    requires { vec_len bytes.old + 8 * length values.now ≤ vec_capacity bytes.old }
    ensures added { bytes.new.items ≡ bytes.old.items ++ encoded values.now }
    ensures fit { All (FitsSigned w64) values.now }
{
    for value in values {
        put(value, bytes);
    }
}

// Adds the bytes of a value to a vector that has room for them.
fn put(value: &i64, bytes: &mut Vec<u8>)
    requires { vec_len bytes.old + 8 ≤ vec_capacity bytes.old }
    ensures added { bytes.new.items ≡ bytes.old.items ++ bytes_of value.now }
    ensures len { vec_len bytes.new ≡ vec_len bytes.old + 8 }
    ensures capacity { vec_capacity bytes.old ≤ vec_capacity bytes.new }
    ensures fits { FitsSigned w64 value.now }
{
    bytes.extend_from_slice(&value.to_be_bytes()).unwrap();
}

/// Fills the values with those of the bytes, 8 for each, the highest first.
pub fn decode(bytes: &[u8], values: &mut [i64])
    requires long { length bytes.now ≡ 8 * length values.old }
    ensures back { (xs : List ℤ) → bytes.now ≡ encoded xs → All (FitsSigned w64) xs → values.new ≡ xs }
{
    for i in 0..values.len() {
        values[i] = value_of(&bytes[8 * i..8 * i + 8]);
    }
}

// The value of 8 bytes.
fn value_of(piece: &[u8]) -> i64
    requires { length piece.now ≡ 8 }
    ensures { (x : ℤ) → piece.now ≡ bytes_of x → FitsSigned w64 x → result ≡ x }
{
    i64::from_be_bytes([
        piece[0], piece[1], piece[2], piece[3], piece[4], piece[5], piece[6], piece[7],
    ])
}
