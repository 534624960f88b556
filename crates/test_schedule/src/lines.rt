//! Texts as lines, lines as words, words as numbers and bytes.

use crate::wrong::has_none;
use drm_bits::NoMemory;
use std::alloc::Global;
use text_lines::*;

// Puts each piece behind the text, with a `|` behind it.
fn show(text: &mut String, pieces: &[&str]) -> bool {
    for piece in pieces {
        if text.push_str(piece).is_err() || text.push('|').is_err() {
            return false;
        }
    }
    true
}

fn is_shown(alloc: Global, pieces: &[&str], expected: &str) -> bool {
    let mut text = String::new(alloc);
    show(&mut text, pieces) && text.as_str() == expected
}

// A text, and its lines.
const TEXTS: &[(&str, &str)] = &[
    ("", ""),
    ("\n", "|"),
    ("a", "a|"),
    ("a\n", "a|"),
    ("a\n\n", "a||"),
    ("\na", "|a|"),
    ("a b\r\nc\n d", "a b\r|c| d|"),
];

fn has_lines(alloc: Global, text: &str, expected: &str) -> bool {
    match lines(alloc, text) {
        Ok(lines) => is_shown(alloc, &lines, expected),
        Err(NoMemory) => false,
    }
}

// The first text with other lines.
fn wrong_lines(alloc: Global) -> Option<usize> {
    for (k, row) in TEXTS.iter().enumerate() {
        if !has_lines(alloc, row.0, row.1) {
            return Some(k);
        }
    }
    None
}

#[test]
fn cuts_a_text_into_lines(rt: HostRuntime) {
    has_none(&rt, wrong_lines(rt.alloc()));
}

// A line, and its words.
const LINES: &[(&str, &str)] = &[
    ("", ""),
    ("   ", ""),
    ("a", "a|"),
    ("a b", "a|b|"),
    ("  a   b ", "a|b|"),
    ("a\tb c\r", "a\tb|c\r|"),
    ("label 0 Radio Ås", "label|0|Radio|Ås|"),
];

fn has_words(alloc: Global, line: &str, expected: &str) -> bool {
    match words(alloc, line) {
        Ok(words) => is_shown(alloc, &words, expected),
        Err(NoMemory) => false,
    }
}

// The first line with other words.
fn wrong_words(alloc: Global) -> Option<usize> {
    for (k, row) in LINES.iter().enumerate() {
        if !has_words(alloc, row.0, row.1) {
            return Some(k);
        }
    }
    None
}

#[test]
fn cuts_a_line_into_words(rt: HostRuntime) {
    has_none(&rt, wrong_words(rt.alloc()));
}

// A line, and what stands behind two words.
const BEHIND: &[(&str, &str)] = &[
    ("", ""),
    ("label", ""),
    ("label 0", ""),
    ("label 0 ", ""),
    ("label 0 a", "a"),
    ("label 0  a  b ", " a  b "),
    ("  label   0 Ås", "Ås"),
    ("label 0\ta b", "b"),
];

// The first line with something else behind its words.
fn wrong_behind() -> Option<usize> {
    for (k, row) in BEHIND.iter().enumerate() {
        if behind_two_words(row.0) != row.1 {
            return Some(k);
        }
    }
    None
}

#[test]
fn keeps_what_stands_behind_two_words(rt: HostRuntime) {
    has_none(&rt, wrong_behind());
}

const NUMBERS: &[(&str, Option<u64>)] = &[
    ("0", Some(0)),
    ("007", Some(7)),
    ("4294967295", Some(4_294_967_295)),
    ("9999999999", Some(9_999_999_999)),
    ("0000000001", Some(1)),
    ("00000000001", None),
    ("", None),
    ("+5", None),
    ("-5", None),
    ("5x", None),
    ("٣", None),
];

// The first word that is another number.
fn wrong_number() -> Option<usize> {
    for (k, row) in NUMBERS.iter().enumerate() {
        if number(row.0) != row.1 {
            return Some(k);
        }
    }
    None
}

#[test]
fn reads_numbers(rt: HostRuntime) {
    has_none(&rt, wrong_number());
}

const THREE_BYTES: &[(&str, Option<[u8; 3]>)] = &[
    ("0A0b0c", Some([10, 11, 12])),
    ("FFffFf", Some([255, 255, 255])),
    ("", None),
    ("0a0b0", None),
    ("0a0b", None),
    ("0a0b0c0d", None),
    ("0a0b0g", None),
    ("+a0b0c", None),
];

// The first word that is other bytes.
fn wrong_three() -> Option<usize> {
    for (k, row) in THREE_BYTES.iter().enumerate() {
        if hex::<3>(row.0) != row.1 {
            return Some(k);
        }
    }
    None
}

#[test]
fn reads_so_many_bytes(rt: HostRuntime) {
    has_none(&rt, wrong_three());
}

const ANY_BYTES: &[(&str, Option<&[u8]>)] = &[
    ("", Some(&[])),
    ("aB", Some(&[0xab])),
    ("00ff10", Some(&[0, 255, 16])),
    ("a", None),
    ("0g", None),
    ("-", None),
];

fn are_bytes(alloc: Global, word: &str, expected: Option<&[u8]>) -> bool {
    match bytes(alloc, word) {
        Ok(Some(bytes)) => Some(bytes.as_slice()) == expected,
        Ok(None) => expected.is_none(),
        Err(NoMemory) => false,
    }
}

// The first word that is other bytes, or that is some where it should be none.
fn wrong_bytes(alloc: Global) -> Option<usize> {
    for (k, row) in ANY_BYTES.iter().enumerate() {
        if !are_bytes(alloc, row.0, row.1) {
            return Some(k);
        }
    }
    None
}

#[test]
fn reads_any_bytes(rt: HostRuntime) {
    has_none(&rt, wrong_bytes(rt.alloc()));
}

const TEXTS_OF_BYTES: &[(&[u8], Result<&str, u32>)] = &[
    (b"", Ok("")),
    (b"\xc3\x85s\n", Ok("Ås\n")),
    (b"\xff", Err(1)),
    (b"a\n\xc3", Err(2)),
    (b"a\n\n\xc3\n\xff", Err(3)),
    (b"\n\xed\xa0\x80", Err(2)),
];

fn is_text(bytes: &[u8], expected: Result<&str, u32>) -> bool {
    bytes.len() < 1000 && bad_line(bytes) == expected
}

// The first bytes that are another text.
fn wrong_text() -> Option<usize> {
    for (k, row) in TEXTS_OF_BYTES.iter().enumerate() {
        if !is_text(row.0, row.1) {
            return Some(k);
        }
    }
    None
}

#[test]
fn names_the_line_that_is_no_text(rt: HostRuntime) {
    has_none(&rt, wrong_text());
}
