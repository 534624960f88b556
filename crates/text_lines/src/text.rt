//! A text, and its lines.

ghost use Rattle.std.specs.Prelude.{◌≡◌, ◌==◌, ◌<◌, ◌≤◌, ◌^◌, ◌-◌, ◌↔◌, length, map, IsUtf8, IsOk, OnOk, IfOk, IfErr};
ghost use Rattle.std.specs.List.{slice_split};
ghost use Rattle.text_lines.specs.Lines.{lines_of, bad_line_of};
ghost use Rattle.text_lines.specs.Texts.{longest_text, IsNoText};

use drm_bits::NoMemory;
use std::alloc::{AllocError, Global};

/// The most bytes that a text has.
pub const LONGEST_TEXT: usize = 262_144;

/// Why bytes are no text.
#[derive(Clone, Copy, Debug, PartialEq, Eq)]
pub enum NoText {
    /// More than 262,144 bytes.
    TooLong,
    /// The line of the first byte that is no UTF-8, from 1.
    Utf8 { line: u32 },
}

/// The bytes as text, where they are at most 262,144 and UTF-8.
pub fn readable(bytes: &[u8]) -> Result<&str, NoText>
    ensures text { IfOk result (λ t. t.now ≡ bytes.now) }
    ensures fits { OnOk result (length bytes.now ≤ longest_text) }
    ensures utf8 { OnOk result (IsUtf8 bytes.now) }
    ensures fault { IfErr result (λ fault. IsNoText fault bytes.now) }
{
    if bytes.len() > LONGEST_TEXT {
        return Err(NoText::TooLong);
    }
    match bad_line(bytes) {
        Ok(text) => Ok(text),
        Err(line) => Err(NoText::Utf8 { line }),
    }
}

/// The bytes as text, or the line of the first byte that is no UTF-8, from 1.
/// Example: `bad_line(b"a\n\xc3")` is `Err(2)`.
pub fn bad_line(text: &[u8]) -> Result<&str, u32>
    requires { length text.now < 2 ^ 32 - 1 }
    ensures text { IsOk result ↔ IsUtf8 text.now }
    ensures ok { IfOk result (λ t. t.now ≡ text.now) }
    ensures line { IfErr result (λ line. line ≡ bad_line_of text.now) }
{
    match std::str::from_utf8(text) {
        Ok(text) => Ok(text),
        Err(error) => {
            let front = &text[..error.valid_up_to()];
            let feeds = front.iter().filter(|b| **b == b'\n').count();
            Err(feeds as u32 + 1)
        }
    }
}

// The parts of a text round its line feeds.
fn parts(alloc: Global, text: &str) -> Result<Vec<&str>, AllocError>
    ensures { IfOk result (λ parts. map (λ part. part.now) parts.items ≡ slice_split (λ b. b == 10) text.now) }
{
    text.split('\n').collect(alloc)
}

/// The lines of a text. Each ends with a line feed, which the last may lack.
/// Example: the lines of `"a\n\n"` are `"a"` and `""`.
pub fn lines(alloc: Global, text: &str) -> Result<Vec<&str>, NoMemory>
    ensures { IfOk result (λ lines. map (λ line. line.now) lines.items ≡ lines_of text.now) }
{
    let mut lines = parts(alloc, text)?;
    if let Some(last) = lines.pop() {
        if !last.is_empty() {
            if let Err(_) = lines.push(last) {
                return Err(NoMemory);
            }
        }
    }
    Ok(lines)
}
