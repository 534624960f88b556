//! A line's words, read by its row.

ghost use Rattle.std.specs.Prelude.{◌≡◌, length, map, true};
ghost use Rattle.plan_rows.specs.Gives.{GivesValues};
ghost use Rattle.plan_rows.specs.Tables.{line_reads};
ghost use Rattle.plan_rows.specs.Rows.{all_suit, ends_in_text, parts_of, spells};
ghost use Rattle.plan_rows.specs.Steps.{first_wrong};

use crate::read_field::{read_field, suits};
use crate::rows::{front, is_line};
use crate::{Keyword, LineField, LineValue, RowFault, Wrong};
use std::alloc::Global;
use text_lines::behind_two_words;

// Whether there are as many words as fields, each of which suits.
fn all_suit(fields: &[LineField], words: &[&str]) -> bool
    ensures { result ≡ all_suit fields.now (map (λ w. w.now) words.now) }
{
    if fields.len() != words.len() {
        return false;
    }
    for i in 0..fields.len() {
        if !suits(fields[i], words[i]) {
            return false;
        }
    }
    true
}

// The fault of a line, of which one is known and another was found.
fn first_wrong(known: Option<Wrong>, found: Wrong) -> Wrong
    ensures { result ≡ first_wrong known found }
{
    match (known, found) {
        (None, _) => found,
        (Some(Wrong::Word), _) | (_, Wrong::Word) => Wrong::Word,
        (Some(Wrong::Number), _) | (_, Wrong::Number) => Wrong::Number,
        _ => Wrong::Range,
    }
}

// What words spell, as many as there are fields.
fn read_fields(
    alloc: Global,
    fields: &[LineField],
    words: &[&str],
) -> Result<Vec<LineValue>, RowFault>
    requires { length fields.now ≡ length words.now }
    ensures { GivesValues result (spells fields.now (map (λ w. w.now) words.now)) }
{
    let mut values = Vec::new(alloc);
    let mut wrong = None;
    for i in 0..fields.len() {
        match read_field(alloc, fields[i], words[i]) {
            Ok(value) => {
                if let Err(_) = values.push(value) {
                    return Err(RowFault::NoMemory);
                }
            }
            Err(RowFault::Broken(found)) => wrong = Some(first_wrong(wrong, found)),
            Err(RowFault::NoMemory) => return Err(RowFault::NoMemory),
        }
    }
    match wrong {
        None => Ok(values),
        Some(wrong) => Err(RowFault::Broken(wrong)),
    }
}

fn ends_in_text(fields: &[LineField]) -> bool
    ensures { result ≡ ends_in_text fields.now }
{
    matches!(fields, [_, LineField::Text(..)])
}

// Whether the words of a line suit the row.
fn suits_row(fields: &[LineField], line: &str, words: &[&str]) -> bool
    ensures { result ≡ all_suit fields.now (parts_of fields.now line.now (map (λ w. w.now) words.now)) }
{
    if !ends_in_text(fields) {
        return all_suit(fields, words);
    }
    let [first, _, ..] = words else {
        return false;
    };
    all_suit(fields, &[*first, behind_two_words(line)])
}

// What the words of a line spell by a row that they suit.
fn read_row(
    alloc: Global,
    fields: &[LineField],
    line: &str,
    words: &[&str],
) -> Result<Vec<LineValue>, RowFault>
    requires { all_suit fields.now (parts_of fields.now line.now (map (λ w. w.now) words.now)) ≡ true }
    ensures { GivesValues result (spells fields.now (parts_of fields.now line.now (map (λ w. w.now) words.now))) }
{
    if !ends_in_text(fields) {
        return read_fields(alloc, fields, words);
    }
    let [first, _, ..] = words else {
        return Err(RowFault::Broken(Wrong::Word));
    };
    read_fields(alloc, fields, &[*first, behind_two_words(line)])
}

/// What a line says by the first row of its keyword, in this version, that its words suit: by the whole line, and the words after the first.
/// The fault is `Word` where they suit none, else `Number` where one isn't spelled as it has to be, else `Range`.
pub fn read_line(
    alloc: Global,
    table: &[LineField],
    version: u8,
    keyword: Keyword,
    line: &str,
    words: &[&str],
) -> Result<Vec<LineValue>, RowFault>
    ensures { GivesValues result (line_reads table.now version keyword line.now (map (λ w. w.now) words.now)) }
{
    let mut left = table;
    while let [first, rest @ ..] = left {
        if is_line(*first, version, keyword) && suits_row(front(rest), line, words) {
            return read_row(alloc, front(rest), line, words);
        }
        left = rest;
    }
    Err(RowFault::Broken(Wrong::Word))
}
