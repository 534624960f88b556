//! What stands before the value of an item.

ghost use Rattle.std.specs.Prelude.{◌≡◌, ◌<◌, length, IfSome, IfNone};
ghost use Rattle.dcp_tag.specs.Tag.{bytes_for, HasHead};

/// The name and the length of the value in bits.
pub(crate) const HEAD_BYTES: usize = 8;

// The name, the number of the value's bits, and the bytes behind the head.
pub(crate) fn split_head(bytes: &[u8]) -> Option<(&[u8; 4], u32, &[u8])>
    ensures short { IfNone result (length bytes.now < 8) }
    ensures head { IfSome result (λ h. HasHead bytes.now h.0.now h.1 h.2.now) }
{
    let (name, rest) = bytes.split_first_chunk()?;
    let (bits, rest) = rest.split_first_chunk()?;
    Some((name, u32::from_be_bytes(*bits), rest))
}

// The whole bytes that so many bits take.
pub(crate) fn bytes_for(bits: u32) -> usize
    ensures { result ≡ bytes_for bits }
{
    bits.div_ceil(u8::BITS) as usize
}
