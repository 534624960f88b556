//! The commands that receive.

ghost use Rattle.std.specs.Prelude.{◌≡◌, IfOk, IfSome, map};
ghost use Rattle.cli_syntax.specs.Arguing.{option_said};
ghost use Rattle.drm_words.specs.Asking.{addresses_or_none, receive_with, receive_of, address_or_none, count_with, count_of, convert_with, convert_of, gate_with, gate_of};
ghost use Rattle.cli_syntax.specs.Gives.{ParserGives};
ghost use Rattle.drm_words.specs.Table.{HasTextNames};

use crate::asked::asked;
use crate::options::{are_of_reading, are_of_stretch, packets_of, reading_of};
use crate::request::Request;
use cli_syntax::{Named, WordsFault, address, carry, read_addresses};
use drm_links::{Address, Addresses};
use std::alloc::Global;

// No addresses, or those of the one plain word.
fn addresses_or_none(alloc: Global, texts: &[&str]) -> Result<Option<Addresses>, WordsFault>
    ensures { ParserGives result (addresses_or_none (map (λ text. text.now) texts.now)) }
{
    if texts.is_empty() {
        return Ok(None);
    }
    let [text] = texts else {
        return Err(WordsFault::Words);
    };
    let addresses = read_addresses(alloc, text)?;
    Ok(Some(addresses))
}

fn receive_with(options: &[Named<'_>], addresses: Option<Addresses>) -> Option<Request>
    ensures value { result ≡ receive_with (map option_said options.now) addresses }
    ensures text { IfSome result HasTextNames }
{
    let reading = reading_of(options)?;
    Some(Request::Receive {
        addresses,
        window: reading.packets.window,
        reach: reading.packets.reach,
        first: reading.packets.first,
        frames: reading.packets.frames,
        idle: reading.idle,
        limit: reading.limit,
    })
}

// receive [ADDRS] [--window W] [--reach A] [--first N] [--frames N] [--idle K] [--limit L]
#[tactic(auto, unfolding(crate::specs::Asking::receive_of))]
pub(crate) fn receive(
    alloc: Global,
    texts: &[&str],
    options: &[Named<'_>],
) -> Result<Request, WordsFault>
    ensures gives { ParserGives result (receive_of (map (λ text. text.now) texts.now) (map option_said options.now)) }
    ensures text { IfOk result HasTextNames }
{
    if !are_of_reading(options) {
        return Err(WordsFault::Words);
    }
    let addresses = addresses_or_none(alloc, texts)?;
    asked(receive_with(options, addresses))
}

// No address, or that of the one plain word.
fn address_or_none(texts: &[&str]) -> Option<Option<Address>>
    ensures { result ≡ address_or_none (map (λ text. text.now) texts.now) }
{
    if texts.is_empty() {
        return Some(None);
    }
    let [text] = texts else {
        return None;
    };
    let address = address(text)?;
    Some(Some(address))
}

fn count_with(options: &[Named<'_>], address: Option<Address>) -> Option<Request>
    ensures value { result ≡ count_with (map option_said options.now) address }
    ensures text { IfSome result HasTextNames }
{
    let reading = reading_of(options)?;
    Some(Request::Count {
        address,
        window: reading.packets.window,
        reach: reading.packets.reach,
        first: reading.packets.first,
        frames: reading.packets.frames,
        idle: reading.idle,
        limit: reading.limit,
    })
}

// count [ADDR] [--window W] [--reach A] [--first N] [--frames N] [--idle K] [--limit L]
#[tactic(auto, unfolding(crate::specs::Asking::count_of))]
pub(crate) fn count(texts: &[&str], options: &[Named<'_>]) -> Result<Request, WordsFault>
    ensures gives { ParserGives result (count_of (map (λ text. text.now) texts.now) (map option_said options.now)) }
    ensures text { IfOk result HasTextNames }
{
    if !are_of_reading(options) {
        return Err(WordsFault::Words);
    }
    let Some(address) = address_or_none(texts) else {
        return Err(WordsFault::Words);
    };
    asked(count_with(options, address))
}

fn convert_with(text: &str, options: &[Named<'_>]) -> Option<Request>
    ensures value { result ≡ convert_with text.now (map option_said options.now) }
    ensures text { IfSome result HasTextNames }
{
    let carry = carry(text)?;
    let packets = packets_of(options)?;
    Some(Request::Convert {
        carry,
        window: packets.window,
        reach: packets.reach,
        first: packets.first,
        frames: packets.frames,
    })
}

// convert CARRY [--window W] [--reach A] [--first N] [--frames N]
#[tactic(auto, unfolding(crate::specs::Asking::convert_of))]
pub(crate) fn convert(texts: &[&str], options: &[Named<'_>]) -> Result<Request, WordsFault>
    ensures gives { ParserGives result (convert_of (map (λ text. text.now) texts.now) (map option_said options.now)) }
    ensures text { IfOk result HasTextNames }
{
    let [text] = texts else {
        return Err(WordsFault::Words);
    };
    if !are_of_stretch(options) {
        return Err(WordsFault::Words);
    }
    asked(convert_with(text, options))
}

fn gate_with(from: &str, to: Addresses, text: &str, options: &[Named<'_>]) -> Option<Request>
    ensures value { result ≡ gate_with from.now to text.now (map option_said options.now) }
    ensures text { IfSome result HasTextNames }
{
    let from = address(from)?;
    let carry = carry(text)?;
    let reading = reading_of(options)?;
    Some(Request::Gate {
        from,
        to,
        carry,
        window: reading.packets.window,
        reach: reading.packets.reach,
        first: reading.packets.first,
        frames: reading.packets.frames,
        idle: reading.idle,
        limit: reading.limit,
    })
}

// gate FROM ADDRS CARRY [--window W] [--reach A] [--first N] [--frames N] [--idle K] [--limit L]
#[tactic(auto, unfolding(crate::specs::Asking::gate_of))]
pub(crate) fn gate(
    alloc: Global,
    texts: &[&str],
    options: &[Named<'_>],
) -> Result<Request, WordsFault>
    ensures gives { ParserGives result (gate_of (map (λ text. text.now) texts.now) (map option_said options.now)) }
    ensures text { IfOk result HasTextNames }
{
    let [from, to, text] = texts else {
        return Err(WordsFault::Words);
    };
    if !are_of_reading(options) {
        return Err(WordsFault::Words);
    }
    let to = read_addresses(alloc, to)?;
    asked(gate_with(from, to, text, options))
}
