//! What a word of a line may be.

use crate::{Choice, Keyword};

/// What a word may be, and with that which value it spells.
#[derive(Clone, Copy, Debug, PartialEq, Eq)]
pub enum LineField {
    /// In a table: here begins a line of this first word, which stands in the versions from the first to the last.
    Line(Keyword, u8, u8),
    /// A decimal number from the least to the greatest.
    Byte(u8, u8),
    Short(u16, u16),
    Long(u32, u32),
    /// 0 or 1.
    Bit,
    /// The number of a type that no other line gives.
    RawKind,
    /// As many hex digits.
    Hex2,
    Hex4,
    Hex6,
    /// A byte in two hex digits, or `-` for none.
    OptionalByte,
    /// At most so many bytes, in two hex digits each, or `-` for none.
    Bytes(u8),
    /// A word of at most so many bytes.
    Name(u8),
    /// The rest of the line, of at least one character, and at most so many characters and so many bytes.
    Text(u8, u8),
    /// Frequencies joined by commas.
    Frequencies,
    /// One of a set of words.
    Choice(Choice),
    /// The word at this place of a set.
    Fixed(Choice, u8),
}
