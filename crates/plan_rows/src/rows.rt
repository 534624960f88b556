//! The rows of a table.

ghost use Rattle.std.specs.Prelude.{◌≡◌};
ghost use Rattle.plan_rows.specs.Tables.{is_line, keyword_in, begins, front};

use crate::{Keyword, LineField};

/// Whether a line of this keyword begins here, in this version.
pub(crate) fn is_line(field: LineField, version: u8, keyword: Keyword) -> bool
    ensures { result ≡ is_line field version keyword }
{
    match field {
        LineField::Line(word, first, last) => {
            word.is(keyword) && (first <= version && version <= last)
        }
        _ => false,
    }
}

/// The keyword that a word is, if a line of the table begins with it in this version.
pub fn keyword_in(table: &[LineField], version: u8, word: &str) -> Option<Keyword>
    ensures { result ≡ keyword_in table.now version word.now }
{
    let mut left = table;
    while let [field, rest @ ..] = left {
        if let LineField::Line(keyword, first, last) = *field {
            if word == keyword.text() && (first <= version && version <= last) {
                return Some(keyword);
            }
        }
        left = rest;
    }
    None
}

fn begins(field: LineField) -> bool
    ensures { result ≡ begins field }
{
    matches!(field, LineField::Line(..))
}

/// The fields up to the next line.
pub(crate) fn front(cells: &[LineField]) -> &[LineField]
    ensures { result.now ≡ front cells.now }
{
    for i in 0..cells.len() {
        if begins(cells[i]) {
            return &cells[..i];
        }
    }
    cells
}
