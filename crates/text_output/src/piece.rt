//! Text in pieces, which needs no memory.

/// A piece of a text.
#[derive(Clone, Copy)]
pub enum Piece<'a> {
    Words(&'a str),
    /// A number in decimal digits.
    Number(u64),
    /// Bytes in hex, two digits each.
    Hex(&'a [u8]),
    /// The name of a TAG item, as it stands.
    Name([u8; 4]),
}
