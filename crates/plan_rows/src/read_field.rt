//! A word, read by its field.

ghost use Rattle.std.specs.Prelude.{◌≡◌, ◌∷◌, ◌<◌, ◌≤◌, ◌&&◌, ◌^◌, nat_le, is_some, length, true, false, IsTrue, MatchOption, MatchResult};
ghost use Rattle.std.specs.Int.{from_be_bytes, w32};
ghost use Rattle.std.specs.Str.{chars, bytes_eq};
ghost use Rattle.text_lines.specs.Hex.{hex_of};
ghost use Rattle.text_lines.specs.Numbers.{is_number};
ghost use Rattle.plan_rows.specs.Gives.{GivesValue};
ghost use Rattle.plan_rows.specs.Fields.{suits, verdict, spells_one};
ghost use Rattle.plan_rows.specs.Words.{number as a_number, value, is_raw_kind, raw_kind, hex_value, text as a_text, free_bytes, bytes_value};

use crate::choice::{name, place};
use crate::frequencies::frequencies;
use crate::{LineField, LineValue, RowFault, Wrong};
use drm_bits::Octets;
use std::alloc::Global;

// The number that a word spells.
#[tactic(auto, unfolding(text_lines::specs::Numbers::number_of))]
pub(crate) fn spelled(word: &str) -> Result<u64, Wrong>
    ensures { MatchResult result (λ n. (is_number word.now ≡ true) × (n ≡ value word.now)) (λ wrong. (is_number word.now ≡ false) × (wrong ≡ Wrong.Number)) }
{
    match text_lines::number(word) {
        Some(number) => Ok(number),
        None => Err(Wrong::Number),
    }
}

/// The number, where it is in this range.
pub(crate) fn within(number: u64, least: u64, greatest: u64) -> Result<u64, Wrong>
    ensures { MatchResult result (λ n. (nat_le least number ≡ true) × (nat_le number greatest ≡ true) × (n ≡ number) × (n ≤ greatest)) (λ wrong. ((nat_le least number && nat_le number greatest) ≡ false) × (wrong ≡ Wrong.Range)) }
{
    if least <= number && number <= greatest {
        Ok(number)
    } else {
        Err(Wrong::Range)
    }
}

// The number that a word spells, in its range.
fn number(word: &str, least: u32, greatest: u32) -> Result<u32, Wrong>
    ensures read { result ≡ verdict (a_number least greatest word.now).is_spelled (a_number least greatest word.now).in_range (value word.now) }
    ensures in_range { MatchResult result (λ n. n ≤ greatest) (λ _. Unit {0}) }
{
    let number = spelled(word)?;
    let number = within(number, u64::from(least), u64::from(greatest))?;
    Ok(number as u32)
}

fn byte(word: &str, least: u8, greatest: u8) -> Result<LineValue, RowFault>
    ensures { GivesValue result (spells_one (LineField.Byte least greatest) word.now) }
{
    let number = number(word, u32::from(least), u32::from(greatest))?;
    Ok(LineValue::Byte(number as u8))
}

fn short(word: &str, least: u16, greatest: u16) -> Result<LineValue, RowFault>
    ensures { GivesValue result (spells_one (LineField.Short least greatest) word.now) }
{
    let number = number(word, u32::from(least), u32::from(greatest))?;
    Ok(LineValue::Short(number as u16))
}

fn long(word: &str, least: u32, greatest: u32) -> Result<LineValue, RowFault>
    ensures { GivesValue result (spells_one (LineField.Long least greatest) word.now) }
{
    Ok(LineValue::Long(number(word, least, greatest)?))
}

fn bit(word: &str) -> Result<LineValue, RowFault>
    ensures { GivesValue result (spells_one LineField.Bit word.now) }
{
    let number = number(word, 0, 1)?;
    Ok(LineValue::Flag(number == 1))
}

// Whether no other line gives entities of this type.
fn is_raw(kind: u64) -> bool
    ensures which { result ≡ is_raw_kind kind }
    ensures in_range { IsTrue result → kind < 16 }
{
    matches!(kind, 2 | 6 | 7 | 11 | 13 | 14 | 15)
}

fn raw(word: &str) -> Result<LineValue, RowFault>
    ensures { GivesValue result (spells_one LineField.RawKind word.now) }
{
    let kind = spelled(word)?;
    if is_raw(kind) {
        Ok(LineValue::Byte(kind as u8))
    } else {
        Err(RowFault::Broken(Wrong::Range))
    }
}

// The bytes that a word spells in two hex digits each, where they are `N`.
fn hex<const N: usize>(word: &str) -> Result<[u8; N], Wrong>
    ensures { result ≡ verdict (is_some (hex_of N word.now)) true (hex_value N word.now) }
{
    match text_lines::hex::<N>(word) {
        Some(bytes) => Ok(bytes),
        None => Err(Wrong::Number),
    }
}

fn hex2(word: &str) -> Result<LineValue, RowFault>
    ensures { GivesValue result (spells_one LineField.Hex2 word.now) }
{
    let bytes = hex::<1>(word)?;
    Ok(LineValue::Byte(bytes[0]))
}

fn hex4(word: &str) -> Result<LineValue, RowFault>
    ensures { GivesValue result (spells_one LineField.Hex4 word.now) }
{
    let bytes = hex::<2>(word)?;
    Ok(LineValue::Short(u16::from_be_bytes(bytes)))
}

fn hex6(word: &str) -> Result<LineValue, RowFault>
    ensures { GivesValue result (spells_one LineField.Hex6 word.now) }
{
    let [high, middle, low] = hex::<3>(word)?;
    Ok(LineValue::Long(u32::from_be_bytes([0, high, middle, low])))
}

fn optional_byte(word: &str) -> Result<LineValue, RowFault>
    ensures { GivesValue result (spells_one LineField.OptionalByte word.now) }
{
    if word == "-" {
        return Ok(LineValue::OptionalByte(None));
    }
    let bytes = hex::<1>(word)?;
    Ok(LineValue::OptionalByte(Some(bytes[0])))
}

// The bytes that a word spells, where `-` stands for none; none where it spells none.
fn spelled_bytes(alloc: Global, word: &str) -> Result<Option<Octets>, RowFault>
    ensures { MatchResult result (λ bytes. bytes ≡ free_bytes word.now) (λ fault. fault ≡ RowFault.NoMemory) }
{
    if word == "-" {
        return Ok(Some(Octets::from_slice(alloc, &[])?));
    }
    Ok(text_lines::bytes(alloc, word)?)
}

fn bytes(alloc: Global, word: &str, most: u8) -> Result<LineValue, RowFault>
    ensures { GivesValue result (spells_one (LineField.Bytes most) word.now) }
{
    match spelled_bytes(alloc, word)? {
        Some(bytes) if bytes.as_slice().len() <= usize::from(most) => Ok(LineValue::Bytes(bytes)),
        Some(_) => Err(RowFault::Broken(Wrong::Range)),
        None => Err(RowFault::Broken(Wrong::Number)),
    }
}

fn characters(text: &str) -> usize
    ensures { result ≡ length (chars text.now) }
{
    text.chars().count()
}

// Whether a text has a character, and at most so many characters and so many bytes.
fn is_text(text: &str, most: u8, size: u8) -> bool
    ensures { result ≡ (a_text most size text.now).in_range }
{
    let characters = characters(text);
    1 <= characters && characters <= usize::from(most) && text.len() <= usize::from(size)
}

// A word itself, where it is in range.
fn itself(alloc: Global, word: &str, in_range: bool) -> Result<LineValue, RowFault>
    ensures { GivesValue result (verdict true in_range (LineValue.Bytes word.now)) }
{
    if in_range {
        Ok(LineValue::Bytes(Octets::from_slice(alloc, word.as_bytes())?))
    } else {
        Err(RowFault::Broken(Wrong::Range))
    }
}

/// Whether a word can stand there in such a line.
pub(crate) fn suits(field: LineField, word: &str) -> bool
    ensures { result ≡ suits field word.now }
{
    match field {
        LineField::Line(..) => false,
        LineField::Choice(choice) => place(choice, word).is_some(),
        LineField::Fixed(choice, at) => word == name(choice, at),
        _ => true,
    }
}

/// What a word that suits spells.
pub(crate) fn read_field(alloc: Global, field: LineField, word: &str) -> Result<LineValue, RowFault>
    ensures { GivesValue result (spells_one field word.now) }
{
    match field {
        LineField::Line(..) => Ok(LineValue::Byte(0)),
        LineField::Byte(least, greatest) => byte(word, least, greatest),
        LineField::Short(least, greatest) => short(word, least, greatest),
        LineField::Long(least, greatest) => long(word, least, greatest),
        LineField::Bit => bit(word),
        LineField::RawKind => raw(word),
        LineField::Hex2 => hex2(word),
        LineField::Hex4 => hex4(word),
        LineField::Hex6 => hex6(word),
        LineField::OptionalByte => optional_byte(word),
        LineField::Bytes(most) => bytes(alloc, word, most),
        LineField::Name(most) => itself(alloc, word, word.len() <= usize::from(most)),
        LineField::Text(characters, size) => itself(alloc, word, is_text(word, characters, size)),
        LineField::Frequencies => frequencies(alloc, word),
        LineField::Choice(choice) => Ok(LineValue::Byte(place(choice, word).unwrap_or(0))),
        LineField::Fixed(_, at) => Ok(LineValue::Byte(at)),
    }
}
