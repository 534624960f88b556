//! An item, written.

ghost use Rattle.std.specs.Prelude.{◌≡◌, ◌+◌, ◌-◌, ◌*◌, ◌≤◌, ◌++◌, length, take, drop, false, replicate, slice_range};
ghost use Rattle.drm_bits.specs.Bits.{bits_of};
ghost use Rattle.dcp_tag.specs.Tag.{bytes_for, head, IsWrittenItem};
ghost use Rattle.dcp_tag.specs.Reading.{item_of};

use crate::head::HEAD_BYTES;
use drm_bits::put_at;

/// Writes an item from the byte `at` on, and answers the byte behind it. `bits` is the length of the value in bits.
/// Example: `write_item(into, 0, *b"dlfc", 32, &[0, 0, 0, 1])` writes `dlfc`, `00 00 00 20`, `00 00 00 01`, and is 16.
pub fn write_item(into: &mut [u8], at: usize, name: [u8; 4], bits: u32, value: &[u8]) -> usize
    requires size { length value.now ≡ bytes_for bits }
    requires padding { drop bits (bits_of value.now) ≡ replicate (8 * length value.now - bits) false }
    requires room { at + 8 + length value.now ≤ length into.old }
    ensures end { result ≡ at + 8 + length value.now }
    ensures written { into.new ≡ take at into.old ++ (head name bits ++ value.now) ++ drop result into.old }
    // The bytes from `at` to the end are the written spelling of the item.
    ensures spelling { IsWrittenItem (item_of name bits value.now) (slice_range into.new at result) }
{
    let value_at = at + HEAD_BYTES;
    put_at(into, at, &name);
    put_at(into, at + 4, &bits.to_be_bytes());
    put_at(into, value_at, value);
    value_at + value.len()
}
