//! Words that are lists of frequencies.

ghost use Rattle.std.specs.Prelude.{◌≡◌, ◌==◌, ◌&&◌, ◌<◌, ◌≤◌, map, length, nat_le, true, false, IfOk, MatchResult};
ghost use Rattle.std.specs.List.{list_all, slice_split};
ghost use Rattle.text_lines.specs.Numbers.{is_number};
ghost use Rattle.plan_rows.specs.declared.field.LineField.{LineField};
ghost use Rattle.plan_rows.specs.Frequencies.{elements, has_plus, digits, channel, are_spelled, are_in_range, frequencies};
ghost use Rattle.plan_rows.specs.Gives.{GivesValue, OnBroken};
ghost use Rattle.plan_rows.specs.Fields.{spells_one};
ghost use Rattle.plan_rows.specs.Words.{value};

use crate::read_field::{spelled as number, within};
use crate::{LineValue, RowFault, Wrong};
use drm_bits::NoMemory;
use drm_sdc::{Channel15, Channels};
use std::alloc::{AllocError, Global};

// What stands between the commas, as the collection of it fails.
fn parts(alloc: Global, word: &str) -> Result<Vec<&str>, AllocError>
    ensures { IfOk result (λ parts. map (λ part. part.now) parts.items ≡ elements word.now) }
{
    word.split(',').collect(alloc)
}

fn has_plus(element: &str) -> bool
    ensures { result ≡ has_plus element.now }
{
    match element.as_bytes() {
        [first, ..] => *first == b'+',
        [] => false,
    }
}

fn digits(element: &str) -> &str
    ensures { result.now ≡ digits element.now }
{
    match element.strip_prefix('+') {
        Some(digits) => digits,
        None => element,
    }
}

fn is_spelled(element: &str) -> bool
    ensures { result ≡ is_number (digits element.now) }
{
    number(digits(element)).is_ok()
}

fn are_spelled(elements: &[&str]) -> bool
    ensures { result ≡ list_all (λ element. is_number (digits element.now)) elements.now }
{
    elements.iter().all(|element| is_spelled(element))
}

// The frequency that an element says.
fn channel(element: &str) -> Result<Channel15, Wrong>
    requires { is_number (digits element.now) ≡ true }
    ensures { MatchResult result (λ made. (nat_le (value (digits element.now)) 32767 ≡ true) × (made ≡ channel element.now)) (λ reason. (nat_le (value (digits element.now)) 32767 ≡ false) × (reason ≡ Wrong.Range)) }
{
    let number = number(digits(element))?;
    let number = within(number, 0, 32767)? as u16;
    let first = has_plus(element);
    Ok(Channel15 { first, number })
}

// The frequencies that the elements say.
fn channels(alloc: Global, elements: &[&str]) -> Result<Channels, RowFault>
    requires { list_all (λ element. is_number (digits element.now)) elements.now ≡ true }
    ensures { MatchResult result (λ made. (list_all (λ element. nat_le (value (digits element.now)) 32767) elements.now ≡ true) × (made ≡ map (λ element. channel element.now) elements.now)) (λ fault. OnBroken fault (λ reason. (list_all (λ element. nat_le (value (digits element.now)) 32767) elements.now ≡ false) × (reason ≡ Wrong.Range))) }
{
    let mut channels = Channels::new(alloc);
    for element in elements {
        let channel = channel(element)?;
        channels.push(channel)?;
    }
    Ok(channels)
}

// The elements of a list, where each is spelled as one.
fn spelled(alloc: Global, list: &str) -> Result<Vec<&str>, RowFault>
    ensures { MatchResult result (λ parts. ((frequencies list.now).is_spelled ≡ true) × (map (λ part. part.now) parts.items ≡ elements list.now)) (λ fault. OnBroken fault (λ reason. ((frequencies list.now).is_spelled ≡ false) × (reason ≡ Wrong.Number))) }
{
    let parts = parts(alloc, list)?;
    if are_spelled(&parts) {
        Ok(parts)
    } else {
        Err(RowFault::Broken(Wrong::Number))
    }
}

// The frequencies that the elements say, where they are few enough and in range.
fn in_range(alloc: Global, elements: &[&str]) -> Result<Channels, RowFault>
    requires { are_spelled (map (λ e. e.now) elements.now) ≡ true }
    ensures { MatchResult result (λ made. (are_in_range (map (λ e. e.now) elements.now) ≡ true) × (made ≡ map channel (map (λ e. e.now) elements.now))) (λ fault. OnBroken fault (λ reason. (are_in_range (map (λ e. e.now) elements.now) ≡ false) × (reason ≡ Wrong.Range))) }
{
    if elements.len() > 16 {
        return Err(RowFault::Broken(Wrong::Range));
    }
    channels(alloc, elements)
}

/// The frequencies that a word spells.
pub(crate) fn frequencies(alloc: Global, word: &str) -> Result<LineValue, RowFault>
    ensures { GivesValue result (spells_one LineField.Frequencies word.now) }
{
    let elements = spelled(alloc, word)?;
    Ok(LineValue::Frequencies(in_range(alloc, &elements)?))
}

/// A copy of a list of frequencies.
pub(crate) fn copied(alloc: Global, list: &[Channel15]) -> Result<Channels, NoMemory>
    ensures { IfOk result (λ made. made ≡ list.now) }
{
    let mut made = Channels::new(alloc);
    for channel in list {
        made.push(*channel)?;
    }
    Ok(made)
}
