//! The line of what is wrong with a packet.

ghost use Rattle.std.specs.Prelude.{◌≡◌, ◌++◌};
ghost use Rattle.drm_links.specs.Sink.{WritesWhole};
ghost use Rattle.text_output.specs.Text.{piece_text, text_of};
ghost use Rattle.report_dump.specs.Lines.{bad_line};

use drm_links::{Sink, WriteFault};
use report_text::FaultWords;
use text_output::{Piece, write_pieces};

/// Words with nothing behind them.
pub(crate) fn plain(words: &'static str) -> FaultWords
    ensures { piece_text result.0 ++ piece_text result.1 ≡ words.now }
{
    (Piece::Words(""), Piece::Words(words))
}

/// Writes what is wrong with the packet at a byte of the capture.
pub(crate) fn write_bad<O: Sink>(out: &mut O, at: u64, words: FaultWords) -> Result<(), WriteFault>
    ensures { WritesWhole result (O.known out.old) (O.known out.new) (bad_line at (piece_text words.entry.0 ++ piece_text words.entry.1)) }
{
    write_pieces(out, &pieces(at, words))
}

fn pieces(at: u64, words: FaultWords) -> [Piece<'static>; 6]
    ensures { text_of result ≡ bad_line at (piece_text words.entry.0 ++ piece_text words.entry.1) }
{
    [
        Piece::Words("bad "),
        Piece::Number(at),
        Piece::Words(" "),
        words.0,
        words.1,
        Piece::Words("\n"),
    ]
}
