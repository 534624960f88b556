//! Why a word is not solved.

/// Why the erased places of a word are not filled.
#[derive(Clone, Copy, PartialEq, Eq, Debug)]
pub enum SolveFault {
    /// More places are erased than there are parity bytes.
    TooMany { count: usize },
    /// No code word agrees with the word outside the erased places.
    NoCodeWord,
}
