//! The words of a line: numbers, addresses, lists.

use anyhow::{Context, Result, bail};
use drm_links::Address;
use std::alloc::Global;
use std::net::SocketAddrV4;
use std::num::NonZeroUsize;

// A number has one spelling: no sign, and no zero in front.
fn is_plain(text: &str) -> bool {
    text == "0" || !text.starts_with('0') && !text.starts_with('+')
}

pub fn number(text: &str) -> Result<u64> {
    if !is_plain(text) {
        bail!("{text:?} is no number");
    }
    text.parse::<u64>()
        .context(format_args!("{text:?} is no number"))
}

pub fn size(text: &str) -> Result<usize> {
    if !is_plain(text) {
        bail!("{text:?} is no number");
    }
    text.parse::<usize>()
        .context(format_args!("{text:?} is no number"))
}

pub fn piece(text: &str) -> Result<NonZeroUsize> {
    NonZeroUsize::new(size(text)?).context("a piece of no bytes")
}

pub fn status(text: &str) -> Result<u8> {
    if !is_plain(text) {
        bail!("{text:?} is no status");
    }
    text.parse::<u8>()
        .context(format_args!("{text:?} is no status"))
}

pub fn numbers(alloc: Global, text: &str) -> Result<Vec<u64>> {
    let mut numbers = Vec::new(alloc);
    for part in text.split(' ') {
        numbers.push(number(part)?)?;
    }
    Ok(numbers)
}

pub fn words(alloc: Global, text: &str) -> Result<Vec<String>> {
    let mut words = Vec::new(alloc);
    for word in text.split(' ') {
        words.push(String::from_str(alloc, word)?)?;
    }
    Ok(words)
}

pub fn address(text: &str) -> Result<Address> {
    let socket = text
        .parse::<SocketAddrV4>()
        .context(format_args!("{text:?} is no address"))?;
    Ok(Address {
        ip: socket.ip().octets(),
        port: socket.port(),
    })
}

/// The bytes of lower-case digits, two a byte.
pub fn bytes(alloc: Global, digits: &str) -> Result<Vec<u8>> {
    if digits.bytes().any(|digit| digit.is_ascii_uppercase()) {
        bail!("{digits:?} has an upper-case digit");
    }
    Ok(hex::decode(alloc, digits)?)
}
