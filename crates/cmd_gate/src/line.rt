//! The line of a gateway's run.

ghost use Rattle.std.specs.Prelude.{◌≡◌};
ghost use Rattle.drm_links.specs.Sink.{WritesWhole};
ghost use Rattle.cmd_gate.specs.Line as line;

use drm_gate::Tally;
use drm_links::{Sink, WriteFault};
use text_output::{Piece, write_pieces};

/// Writes what was counted.
pub(crate) fn write_tally<O: Sink>(out: &mut O, tally: &Tally) -> Result<(), WriteFault>
    ensures { WritesWhole result (O.known out.old) (O.known out.new) (line.gate_line tally.now) }
{
    write_pieces(
        out,
        &[
            Piece::Words("gate given "),
            Piece::Number(tally.given),
            Piece::Words(" missing "),
            Piece::Number(tally.missing),
            Piece::Words(" bad "),
            Piece::Number(tally.bad),
            Piece::Words(" large "),
            Piece::Number(tally.large),
            Piece::Words(" sent "),
            Piece::Number(tally.sent),
            Piece::Words("\n"),
        ],
    )
}

/// Whether each packet was sent.
pub(crate) fn is_clean(tally: &Tally) -> bool
    ensures { result ≡ line.is_clean tally.now }
{
    tally.missing == 0 && tally.bad == 0 && tally.large == 0
}
