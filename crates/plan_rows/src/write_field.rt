//! A value, written as a word.

ghost use Rattle.std.specs.Prelude.{◌≡◌, ◌++◌, [], List, ℕ, decimal, OnOk, IfOk, MatchOption, string_bytes};
ghost use Rattle.plan_rows.specs.Words.{bit_word, hex2, hex4, hex6, optional_byte_word, bytes_word};
ghost use Rattle.plan_rows.specs.Values.{frequencies_in};
ghost use Rattle.plan_rows.specs.Fields.{word_of};
ghost use Rattle.plan_rows.specs.Frequencies.{channel_word, channels_word, separator};

use crate::choice::name;
use crate::value::{byte_in, bytes_in, flag_in, number_in, optional_byte_in, short_in};
use crate::{LineField, LineValue};
use drm_sdc::{Channel15, Channels};
use std::alloc::{AllocError, Global};

// Bytes in hex digits, or `-` for none.
fn bytes_or_none(alloc: Global, bytes: &[u8]) -> Result<String, AllocError>
    ensures { IfOk result (λ s. string_bytes s ≡ bytes_word bytes.now) }
{
    match bytes {
        [] => String::from_str(alloc, "-"),
        _ => hex::encode(alloc, bytes),
    }
}

fn number(alloc: Global, n: u32) -> Result<String, AllocError>
    ensures { IfOk result (λ s. string_bytes s ≡ decimal n) }
{
    format!(in alloc; "{n}")
}

fn bit_word(bit: bool) -> &'static str
    ensures { result.now ≡ bit_word bit }
{
    if bit { "1" } else { "0" }
}

fn two_digits(alloc: Global, n: u8) -> Result<String, AllocError>
    ensures { IfOk result (λ s. string_bytes s ≡ hex2 n) }
{
    hex::encode(alloc, &[n])
}

fn four_digits(alloc: Global, n: u16) -> Result<String, AllocError>
    ensures { IfOk result (λ s. string_bytes s ≡ hex4 n) }
{
    hex::encode(alloc, &n.to_be_bytes())
}

// A number of 24 bits in six hex digits.
fn six_digits(alloc: Global, n: u32) -> Result<String, AllocError>
    ensures { IfOk result (λ s. string_bytes s ≡ hex6 n) }
{
    let bytes = n.to_be_bytes();
    hex::encode(alloc, &bytes[1..])
}

// A byte in two hex digits, or `-` for none.
fn optional_byte(alloc: Global, byte: Option<u8>) -> Result<String, AllocError>
    ensures { IfOk result (λ s. string_bytes s ≡ optional_byte_word byte) }
{
    match byte {
        Some(byte) => hex::encode(alloc, &[byte]),
        None => String::from_str(alloc, "-"),
    }
}

fn frequency(alloc: Global, channel: Channel15) -> Result<String, AllocError>
    ensures { IfOk result (λ s. string_bytes s ≡ channel_word channel) }
{
    let plus = if channel.first { "+" } else { "" };
    let number = channel.number;
    let text = format!(in alloc; "{plus}{number}")?;
    Ok(text)
}

// What stands before the frequency with this number, from 0.
fn separator(k: usize) -> &'static str
    ensures { result.now ≡ separator k }
{
    if k == 0 { "" } else { "," }
}

// Frequencies with a comma between each two.
fn frequencies(alloc: Global, list: &Channels) -> Result<String, AllocError>
    ensures { IfOk result (λ s. string_bytes s ≡ channels_word list.now) }
{
    let mut text = String::new(alloc);
    for k in 0..list.len() {
        let element = frequency(alloc, *list.get(k))?;
        text.push_str(separator(k))?;
        text.push_str(element.as_str())?;
    }
    Ok(text)
}

fn frequencies_in(value: &LineValue) -> Option<&Channels>
    ensures { MatchOption result (frequencies_in value.now ≡ []) (λ list. list.now ≡ frequencies_in value.now) }
{
    match value {
        LineValue::Frequencies(list) => Some(list),
        _ => None,
    }
}

fn write_list(alloc: Global, out: &mut Vec<u8>, value: &LineValue) -> Result<(), AllocError>
    ensures { OnOk result (out.new.items ≡ out.old.items ++ channels_word (frequencies_in value.now)) }
{
    match frequencies_in(value) {
        Some(list) => write_spelled(out, frequencies(alloc, list)),
        None => Ok(()),
    }
}

// What is spelled, written.
fn write_spelled(out: &mut Vec<u8>, spelled: Result<String, AllocError>) -> Result<(), AllocError>
    ensures { (text : List ℕ) → IfOk spelled (λ s. string_bytes s ≡ text) → OnOk result (out.new.items ≡ out.old.items ++ text) }
{
    let spelled = spelled?;
    out.extend_from_slice(spelled.as_bytes())
}

/// Writes a value by its field.
pub(crate) fn write_value(
    alloc: Global,
    out: &mut Vec<u8>,
    field: LineField,
    value: &LineValue,
) -> Result<(), AllocError>
    ensures { OnOk result (out.new.items ≡ out.old.items ++ word_of field value.now) }
{
    match field {
        LineField::Line(..) => Ok(()),
        LineField::Byte(..) | LineField::Short(..) | LineField::Long(..) | LineField::RawKind => {
            write_spelled(out, number(alloc, number_in(value)))
        }
        LineField::Bit => out.extend_from_slice(bit_word(flag_in(value)).as_bytes()),
        LineField::Hex2 => write_spelled(out, two_digits(alloc, byte_in(value))),
        LineField::Hex4 => write_spelled(out, four_digits(alloc, short_in(value))),
        LineField::Hex6 => write_spelled(out, six_digits(alloc, number_in(value))),
        LineField::OptionalByte => write_spelled(
            out,
            optional_byte(alloc, optional_byte_in(value)),
        ),
        LineField::Bytes(_) => write_spelled(out, bytes_or_none(alloc, bytes_in(value))),
        LineField::Frequencies => write_list(alloc, out, value),
        LineField::Name(_) | LineField::Text(..) => out.extend_from_slice(bytes_in(value)),
        LineField::Choice(choice) => out.extend_from_slice(name(choice, byte_in(value)).as_bytes()),
        LineField::Fixed(choice, at) => out.extend_from_slice(name(choice, at).as_bytes()),
    }
}
