//! Where the entities of a field begin and end, and what is wrong with them.

ghost use Rattle.std.specs.Prelude.{◌≡◌, ◌≤◌, ◌<◌, ◌+◌, ◌*◌, ◌↔◌, IsTrue, true, false, IsUtf8, length, drop, IfOk, IfErr, IfSome, IfNone, OnOk};
ghost use Rattle.drm_sdc.specs.Reading.{described_length, has_body_length, optional_count, in_packets, IsWellFormedEntity};
ghost use Rattle.drm_sdc.specs.Field.{IsTail, IsEntityCut, IsEntityFault, first_entity, IsNextEntity};

use crate::SdcFault;
use drm_bits::Bits;

/// The bytes of the entity that begins at `at`, or `None` where the tail does.
pub fn next_entity(field: &[u8], at: usize) -> Result<Option<usize>, SdcFault>
    requires { at ≤ length field.now }
    ensures entity { IfOk result (λ o. IfSome o (λ n. IsNextEntity n (drop at field.now))) }
    ensures tail { IfOk result (λ o. IfNone o (IsTail (drop at field.now))) }
    ensures fault { IfErr result (λ f. (¬ IsTail (drop at field.now)) × IsEntityFault at (drop at field.now) f) }
{
    let rest = &field[at..];
    if is_tail(rest) {
        return Ok(None);
    }
    let len = header_length(rest);
    if rest.len() < 2 + len {
        return Err(SdcFault::EntityCut { at });
    }
    match check_entity(rest, len, at) {
        Ok(()) => Ok(Some(2 + len)),
        Err(fault) => Err(fault),
    }
}

fn is_tail(bytes: &[u8]) -> bool
    ensures { IsTrue result ↔ IsTail bytes.now }
{
    bytes.len() < 2 || bytes[0] == 0 && bytes[1] == 0
}

// The body length that stands in a header.
fn header_length(bytes: &[u8]) -> usize
    requires { 1 ≤ length bytes.now }
    ensures length { result ≡ described_length bytes.now }
    ensures fits { result < 128 }
{
    let mut bits = Bits::new(bytes, 8);
    usize::from(bits.take_u8(7))
}

fn check_entity(bytes: &[u8], len: usize, at: usize) -> Result<(), SdcFault>
    requires length { len ≡ described_length bytes.now }
    requires fits { len < 128 }
    requires whole { 2 + len ≤ length bytes.now }
    ensures sound { OnOk result (IsWellFormedEntity (first_entity bytes.now)) }
    ensures fault { IfErr result (IsEntityFault at bytes.now) }
{
    let entity = &bytes[..2 + len];
    let mut bits = Bits::new(entity, 8 * entity.len());
    let _length = bits.take_u8(7);
    let _version = bits.take_flag();
    let kind = bits.take_u8(4);
    if !is_body_length(kind, &mut bits, len) {
        return Err(SdcFault::BodyLength { at, kind, len });
    }
    if !is_right_text(kind, entity) {
        return Err(SdcFault::LabelText { at });
    }
    Ok(())
}

// Whether the entity is no label, or its text is UTF-8.
fn is_right_text(kind: u8, entity: &[u8]) -> bool
    requires { 2 ≤ length entity.now }
    ensures right { result ≡ true → kind ≡ 1 → IsUtf8 (drop 2 entity.now) }
    ensures wrong { result ≡ false → (kind ≡ 1) × (¬ IsUtf8 (drop 2 entity.now)) }
{
    kind != 1 || is_text(&entity[2..])
}

fn is_text(bytes: &[u8]) -> bool
    ensures { IsTrue result ↔ IsUtf8 bytes.now }
{
    std::str::from_utf8(bytes).is_ok()
}

// Whether a body of this type can have this length.
fn is_body_length(kind: u8, bits: &mut Bits<'_>, len: usize) -> bool
    requires bits { length bits.old ≡ 4 + 8 * len }
    requires fits { len < 128 }
    ensures { result ≡ has_body_length kind bits.old len }
{
    match kind {
        0 => len % 3 == 0 && len <= 12,
        3 => {
            let count = count_optional(bits);
            count <= len && (len - count) % 2 == 0
        }
        4 => len == 4,
        5 => 1 <= len && 1 + usize::from(is_packet_mode(bits)) <= len,
        8 => len == 3 || len == 4,
        9 => 2 <= len,
        10 => len == 2,
        12 => len == 5,
        _ => true,
    }
}

// How many of the two bytes that may be absent a list of frequencies has.
fn count_optional(bits: &mut Bits<'_>) -> usize
    requires { 4 ≤ length bits.old }
    ensures { result ≡ optional_count bits.old }
{
    let _sync = bits.take_flag();
    let _layer = bits.take_flag();
    let has_restriction = bits.take_flag();
    let has_region = bits.take_flag();
    usize::from(has_restriction) + usize::from(has_region)
}

fn is_packet_mode(bits: &mut Bits<'_>) -> bool
    requires { 5 ≤ length bits.old }
    ensures { result ≡ in_packets bits.old }
{
    let _short = bits.take_u8(2);
    let _stream = bits.take_u8(2);
    bits.take_flag()
}
