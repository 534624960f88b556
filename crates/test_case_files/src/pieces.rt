//! Pieces of byte lists.

use crate::words::{bytes, number, size};
use anyhow::{Context, Result, bail};
use std::alloc::Global;
use std::collections::BTreeMap;

pub fn is_piece(keyword: &str) -> bool {
    matches!(keyword, "|" | "." | "x" | "*" | "+" | "%" | "@")
}

/// Appends what a piece line says.
pub fn append(
    list: &mut Vec<u8>,
    named: &BTreeMap<String, Vec<u8>>,
    keyword: &str,
    rest: &str,
) -> Result<()> {
    match keyword {
        "|" => append_line(list, rest),
        "." => Ok(list.extend_from_slice(rest.as_bytes())?),
        "x" => append_digits(list, rest),
        "*" => append_same(list, rest),
        "+" => append_rising(list, rest),
        "%" => append_lines(list, rest),
        _ => append_named(list, named, rest),
    }
}

fn append_line(list: &mut Vec<u8>, text: &str) -> Result<()> {
    list.extend_from_slice(text.as_bytes())?;
    list.push(b'\n')?;
    Ok(())
}

pub fn append_digits(list: &mut Vec<u8>, digits: &str) -> Result<()> {
    let piece = bytes(*list.allocator(), digits)?;
    list.extend_from_slice(&piece)?;
    Ok(())
}

// A number and a byte.
fn count_and_byte(alloc: Global, text: &str) -> Result<(usize, u8)> {
    let (count, digits) = text.split_once(' ').context("a number and a byte")?;
    match bytes(alloc, digits)?.as_slice() {
        [byte] => Ok((size(count)?, *byte)),
        _ => bail!("{digits:?} is no byte"),
    }
}

fn append_same(list: &mut Vec<u8>, rest: &str) -> Result<()> {
    let (count, byte) = count_and_byte(*list.allocator(), rest)?;
    let length = list.len().saturating_add(count);
    list.resize(length, byte)?;
    Ok(())
}

fn append_rising(list: &mut Vec<u8>, rest: &str) -> Result<()> {
    let (count, first) = count_and_byte(*list.allocator(), rest)?;
    let mut next = first;
    for _ in 0..count {
        list.push(next)?;
        next = next.wrapping_add(1);
    }
    Ok(())
}

fn append_lines(list: &mut Vec<u8>, rest: &str) -> Result<()> {
    let (first, behind) = rest.split_once(' ').context("two numbers and a text")?;
    let (last, text) = behind.split_once(' ').context("two numbers and a text")?;
    for k in number(first)?..=number(last)? {
        append_numbered(list, text, k)?;
    }
    Ok(())
}

// The text with the number in place of each `#`, and a line feed.
fn append_numbered(list: &mut Vec<u8>, text: &str, k: u64) -> Result<()> {
    let digits = format!(in *list.allocator(); "{k}")?;
    for character in text.bytes() {
        if character == b'#' {
            list.extend_from_slice(digits.as_bytes())?;
        } else {
            list.push(character)?;
        }
    }
    list.push(b'\n')?;
    Ok(())
}

fn append_named(list: &mut Vec<u8>, named: &BTreeMap<String, Vec<u8>>, name: &str) -> Result<()> {
    let Some(piece) = named.get(name) else {
        bail!("no let has the name {name:?}");
    };
    list.extend_from_slice(piece)?;
    Ok(())
}
