//! What words spell.

ghost use Rattle.std.specs.Prelude.{◌≡◌, IfOk};
ghost use Rattle.plan_rows.specs.Values.{number_in, byte_in, short_in, flag_in, optional_byte_in, bytes_in, number_at, byte_at, short_at, flag_at, bytes_at, optional_byte_at, frequencies_at};

use crate::frequencies::copied;
use drm_bits::{NoMemory, Octets};
use drm_sdc::Channels;
use std::alloc::Global;

/// What a word spells, by its field.
#[derive(Drop)]
pub enum LineValue {
    /// A number, or the place of a word in its set.
    Byte(u8),
    Short(u16),
    Long(u32),
    Flag(bool),
    OptionalByte(Option<u8>),
    /// Bytes, a name or a text.
    Bytes(Octets),
    Frequencies(Channels),
}

impl LineValue {
    /// A copy of these bytes.
    pub fn of_bytes(alloc: Global, bytes: &[u8]) -> Result<LineValue, NoMemory>
        ensures { IfOk result (λ value. value ≡ LineValue.Bytes bytes.now) }
    {
        Ok(LineValue::Bytes(Octets::from_slice(alloc, bytes)?))
    }

    /// A copy of these frequencies.
    pub fn of_frequencies(alloc: Global, list: &Channels) -> Result<LineValue, NoMemory>
        ensures { IfOk result (λ value. value ≡ LineValue.Frequencies list.now) }
    {
        Ok(LineValue::Frequencies(copied(alloc, list.as_slice())?))
    }
}

pub(crate) fn number_in(value: &LineValue) -> u32
    ensures { result ≡ number_in value.now }
{
    match value {
        LineValue::Byte(n) => u32::from(*n),
        LineValue::Short(n) => u32::from(*n),
        LineValue::Long(n) => *n,
        _ => 0,
    }
}

pub(crate) fn byte_in(value: &LineValue) -> u8
    ensures { result ≡ byte_in value.now }
{
    match value {
        LineValue::Byte(n) => *n,
        _ => 0,
    }
}

pub(crate) fn short_in(value: &LineValue) -> u16
    ensures { result ≡ short_in value.now }
{
    match value {
        LineValue::Short(n) => *n,
        _ => 0,
    }
}

pub(crate) fn flag_in(value: &LineValue) -> bool
    ensures { result ≡ flag_in value.now }
{
    match value {
        LineValue::Flag(b) => *b,
        _ => false,
    }
}

pub(crate) fn optional_byte_in(value: &LineValue) -> Option<u8>
    ensures { result ≡ optional_byte_in value.now }
{
    match value {
        LineValue::OptionalByte(byte) => *byte,
        _ => None,
    }
}

pub(crate) fn bytes_in(value: &LineValue) -> &[u8]
    ensures { result.now ≡ bytes_in value.now }
{
    match value {
        LineValue::Bytes(bytes) => bytes.as_slice(),
        _ => &[],
    }
}

/// The value at a place of a line, and 0 or nothing where there is none of this type.
pub fn byte_at(values: &[LineValue], k: usize) -> u8
    ensures { result ≡ byte_at values.now k }
{
    values.get(k).map_or(0, byte_in)
}

pub fn short_at(values: &[LineValue], k: usize) -> u16
    ensures { result ≡ short_at values.now k }
{
    values.get(k).map_or(0, short_in)
}

pub fn number_at(values: &[LineValue], k: usize) -> u32
    ensures { result ≡ number_at values.now k }
{
    values.get(k).map_or(0, number_in)
}

pub fn flag_at(values: &[LineValue], k: usize) -> bool
    ensures { result ≡ flag_at values.now k }
{
    values.get(k).map_or(false, flag_in)
}

/// A copy of the bytes there.
pub fn bytes_at(alloc: Global, values: &[LineValue], k: usize) -> Result<Octets, NoMemory>
    ensures { IfOk result (λ bytes. bytes ≡ bytes_at values.now k) }
{
    match values.get(k) {
        Some(value) => Octets::from_slice(alloc, bytes_in(value)),
        None => Octets::from_slice(alloc, &[]),
    }
}

pub fn optional_byte_at(values: &[LineValue], k: usize) -> Option<u8>
    ensures { result ≡ optional_byte_at values.now k }
{
    values.get(k).map_or(None, optional_byte_in)
}

/// A copy of the frequencies there.
pub fn frequencies_at(alloc: Global, values: &[LineValue], k: usize) -> Result<Channels, NoMemory>
    ensures { IfOk result (λ list. list ≡ frequencies_at values.now k) }
{
    match values.get(k) {
        Some(LineValue::Frequencies(list)) => copied(alloc, list.as_slice()),
        _ => Ok(Channels::new(alloc)),
    }
}
