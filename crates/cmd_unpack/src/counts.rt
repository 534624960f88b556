//! What is counted.

ghost use Rattle.std.specs.Prelude.{◌≡◌};
ghost use Rattle.cmd_unpack.specs.Taken.{no_counts};
ghost use Rattle.cmd_unpack.specs.Lines.{is_clean};

/// How many units or messages were given, and how many cuts and bad and missing items there were. The numbers are so wide
/// that no capture reaches their ends.
#[derive(Clone, Copy, Debug, PartialEq, Eq)]
pub(crate) struct Counts {
    pub given: u128,
    pub cut: u128,
    pub bad: u128,
    pub missing: u128,
}

pub(crate) fn no_counts() -> Counts
    ensures { result ≡ no_counts }
{
    Counts {
        given: 0,
        cut: 0,
        bad: 0,
        missing: 0,
    }
}

/// Whether nothing is cut, bad or missing.
pub(crate) fn is_clean(counts: &Counts) -> bool
    ensures { result ≡ is_clean counts.now }
{
    counts.cut == 0 && (counts.bad == 0 && counts.missing == 0)
}
