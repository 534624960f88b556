//! What can be wrong with the units of an input, and the words for it.

ghost use Rattle.std.specs.Prelude.{◌≡◌};
ghost use Rattle.cmd_faults.specs.Units.{units_line, units_word};
ghost use Rattle.text_output.specs.Text.{text_of};

use text_output::Piece;

/// Why an input isn't a list of units.
#[derive(Clone, Copy, Debug, PartialEq, Eq)]
pub enum UnitsReason {
    /// A unit has no byte.
    Empty,
    /// A unit, or the input, has too many bytes.
    TooLong,
    /// The input ends inside a unit.
    Cut,
}

/// Where an input isn't a list of units, and why.
#[derive(Clone, Copy, Debug, PartialEq, Eq)]
pub struct UnitsFault {
    /// The first byte of the unit.
    pub at: u64,
    pub reason: UnitsReason,
}

/// The line of a fault at a byte of an input of units.
pub fn units_pieces(fault: UnitsFault) -> [Piece<'static>; 5]
    ensures { text_of result ≡ units_line fault }
{
    [
        Piece::Words("drmcast: units byte "),
        Piece::Number(fault.at),
        Piece::Words(": "),
        Piece::Words(word(fault.reason)),
        Piece::Words("\n"),
    ]
}

fn word(reason: UnitsReason) -> &'static str
    ensures { result.now ≡ units_word reason }
{
    match reason {
        UnitsReason::Empty => "empty",
        UnitsReason::TooLong => "too-long",
        UnitsReason::Cut => "cut",
    }
}
