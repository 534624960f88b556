//! A piece of a line.

/// What a piece says.
#[derive(Clone, Copy)]
pub(crate) enum LinePiece<'a> {
    Words(&'a str),
    /// A number in decimal.
    Number(u32),
    /// The same, or `-` for none.
    Maybe(Option<u32>),
}
