//! The numbers of a whole reading.

ghost use Rattle.std.specs.Prelude.{◌≡◌};
ghost use Rattle.report_text.specs.Totals.{are_clean};

use crate::report::Sums;

/// How many datagrams were kept, repeated and late.
#[derive(Clone, Copy, Debug, PartialEq, Eq)]
pub struct AnswerCounts {
    pub kept: u64,
    pub repeated: u64,
    pub late: u64,
}

/// The numbers of a report's last line, and how many datagrams were kept, repeated and late: each datagram counts once.
#[derive(Clone, Copy, Debug, PartialEq, Eq)]
pub struct Totals {
    pub sums: Sums,
    pub answers: AnswerCounts,
}

impl Totals {
    /// Whether no item was missing or bad.
    pub fn is_clean(&self) -> bool
        ensures { result ≡ are_clean self.now }
    {
        self.sums.missing == 0 && self.sums.bad == 0
    }
}
