//! Why a reading ends.

/// Why a reading ends, and so the report of it.
#[derive(Clone, Copy, Debug, PartialEq, Eq)]
pub enum EndWord {
    /// The frames that were asked for were given.
    Frames,
    /// The datagrams that were allowed were taken.
    Limit,
    /// Nothing came for too long.
    Idle,
    /// The input ended.
    Input,
    /// All paths ended.
    Paths,
}
