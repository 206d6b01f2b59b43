//! Whole bytes of the input.

ghost use Rattle.std.specs.Prelude.{◌≡◌, ◌≤◌, ◌*◌, ◌+◌, ◌%◌, length, OnOk};
ghost use Rattle.bitstream.specs.Fields.{input_at, Gives, bytes_seen};
ghost use Rattle.bitstream.specs.Stream.{bytes_at};

use crate::BitFault;

/// A slice of `len` bytes from the bit `at` on, which begins a byte.
pub fn bytes_field<'b>(bytes: &'b [u8], at: u128, len: u64) -> Result<&'b [u8], BitFault>
    requires whole { at % 8 ≡ 0 }
    requires at { at ≤ 8 * length bytes.now }
    ensures read { Gives (input_at bytes.now (at + 8 * len)) (bytes_seen result) (bytes_at len (input_at bytes.now at)) }
    ensures end { OnOk result (at + 8 * len ≤ 8 * length bytes.now) }
{
    let (_, rest) = bytes.split_at((at / 8) as usize);
    if (rest.len() as u64) < len {
        return Err(BitFault::Short { at });
    }
    let (found, _) = rest.split_at(len as usize);
    Ok(found)
}
