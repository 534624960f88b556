//! Addresses, and several of them.

ghost use Rattle.std.specs.Prelude.{◌≡◌, map};
ghost use Rattle.std.specs.List.{list_any};
ghost use Rattle.cli_syntax.specs.Reading.{within};
ghost use Rattle.cli_syntax.specs.Addressing.{address_of, all_addresses, is_same, are_different, addresses_of};
ghost use Rattle.cli_syntax.specs.Gives.{ParserGives};

use crate::cuts::{cut, parts};
use crate::fault::WordsFault;
use crate::numbers::within;
use drm_links::{Address, Addresses};
use std::alloc::Global;

/// The most addresses of a list.
const MOST_ADDRESSES: usize = 16;

fn byte(text: &str) -> Option<u8>
    ensures { result ≡ within 0 255 text.now }
{
    let number = within(text, 0, 255)?;
    Some(number as u8)
}

fn port(text: &str) -> Option<u16>
    ensures { result ≡ within 1 65535 text.now }
{
    let number = within(text, 1, 65535)?;
    Some(number as u16)
}

/// The address that a text spells as `a.b.c.d:port`.
/// Example: `address("127.0.0.1:5000")` is `Some(Address { ip: [127, 0, 0, 1], port: 5000 })`.
#[tactic(auto, unfolding(crate::specs::Addressing::address_of))]
pub fn address(text: &str) -> Option<Address>
    ensures { result ≡ address_of text.now }
{
    let (a, rest) = cut(text, '.')?;
    let (b, rest) = cut(rest, '.')?;
    let (c, rest) = cut(rest, '.')?;
    let (d, last) = cut(rest, ':')?;
    let ip = [byte(a)?, byte(b)?, byte(c)?, byte(d)?];
    let port = port(last)?;
    Some(Address { ip, port })
}

fn is_same(a: &Address, b: &Address) -> bool
    ensures { result ≡ is_same a.now b.now }
{
    a == b
}

fn is_among(address: &Address, others: &[Address]) -> bool
    ensures { result ≡ list_any (λ other. is_same other address.now) others.now }
{
    others.iter().any(|other| is_same(other, address))
}

fn are_different(addresses: &[Address]) -> bool
    ensures { result ≡ are_different addresses.now }
{
    let Some((first, others)) = addresses.split_first() else {
        return true;
    };
    !is_among(first, others) && are_different(others)
}

fn all_addresses(alloc: Global, parts: &[&str]) -> Result<Addresses, WordsFault>
    ensures { ParserGives result (all_addresses (map (λ part. part.now) parts.now)) }
{
    let mut list = Addresses::new(alloc);
    for part in parts {
        match address(part) {
            Some(address) => list.push(address)?,
            None => return Err(WordsFault::Words),
        }
    }
    Ok(list)
}

/// The addresses that a text spells, joined by commas.
#[tactic(auto, unfolding(crate::specs::Addressing::addresses_of))]
pub fn read_addresses(alloc: Global, text: &str) -> Result<Addresses, WordsFault>
    ensures { ParserGives result (addresses_of text.now) }
{
    let parts = parts(alloc, text)?;
    if parts.len() > MOST_ADDRESSES {
        return Err(WordsFault::Words);
    }
    let list = all_addresses(alloc, &parts)?;
    if are_different(list.as_slice()) {
        Ok(list)
    } else {
        Err(WordsFault::Words)
    }
}
