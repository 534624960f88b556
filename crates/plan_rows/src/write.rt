//! Values, written as the words of a line.

ghost use Rattle.std.specs.Prelude.{◌≡◌, ◌++◌, ◌∷◌, [], length, OnOk, IfSome, MatchOption};
ghost use Rattle.std.specs.List.{join_with_byte};
ghost use Rattle.plan_rows.specs.Rows.{words_written, takes, takes_one};
ghost use Rattle.plan_rows.specs.Tables.{row_for, line_written};

use crate::rows::{front, is_line};
use crate::value::byte_in;
use crate::write_field::write_value;
use crate::{Keyword, LineField, LineValue};
use std::alloc::{AllocError, Global};

// Writes a line of a keyword and of values by their fields.
fn write_fields(
    alloc: Global,
    out: &mut Vec<u8>,
    keyword: &str,
    fields: &[LineField],
    values: &[LineValue],
) -> Result<(), AllocError>
    requires { length fields.now ≡ length values.now }
    ensures { OnOk result (out.new.items ≡ out.old.items ++ (join_with_byte 32 (keyword.now ∷ words_written fields.now values.now) ++ 10 ∷ [])) }
{
    out.extend_from_slice(keyword.as_bytes())?;
    for i in 0..fields.len() {
        out.push(b' ')?;
        write_value(alloc, out, fields[i], &values[i])?;
    }
    out.push(b'\n')?;
    Ok(())
}

fn takes(fields: &[LineField], values: &[LineValue]) -> bool
    ensures { result ≡ takes fields.now values.now }
{
    if fields.len() != values.len() {
        return false;
    }
    for i in 0..fields.len() {
        if !takes_one(fields[i], &values[i]) {
            return false;
        }
    }
    true
}

// Whether a value is of the line that has this word here, if the field has only one.
fn takes_one(field: LineField, value: &LineValue) -> bool
    ensures { result ≡ takes_one field value.now }
{
    match field {
        LineField::Fixed(_, at) => byte_in(value) == at,
        _ => true,
    }
}

// The first row of a keyword that takes the values.
fn row_for<'a>(
    table: &'a [LineField],
    version: u8,
    keyword: Keyword,
    values: &[LineValue],
) -> Option<&'a [LineField]>
    ensures row { MatchOption result (row_for table.now version keyword values.now ≡ None) (λ fields. row_for table.now version keyword values.now ≡ Some fields.now) }
    ensures count { IfSome result (λ fields. length fields.now ≡ length values.now) }
{
    let mut left = table;
    while let [first, rest @ ..] = left {
        if is_line(*first, version, keyword) && takes(front(rest), values) {
            return Some(front(rest));
        }
        left = rest;
    }
    None
}

/// Writes the line of these values with its line feed, by the first row of the keyword, in this version, that takes them.
#[tactic(auto, unfolding(crate::specs::Tables::line_written))]
pub fn write_line(
    alloc: Global,
    out: &mut Vec<u8>,
    table: &[LineField],
    version: u8,
    keyword: Keyword,
    values: &[LineValue],
) -> Result<(), AllocError>
    ensures { OnOk result (out.new.items ≡ out.old.items ++ (line_written table.now version keyword values.now ++ 10 ∷ [])) }
{
    match row_for(table, version, keyword, values) {
        Some(fields) => write_fields(alloc, out, keyword.text(), fields, values),
        None => write_fields(alloc, out, keyword.text(), &[], &[]),
    }
}
