//! The first and the last line of a report, and those of refused datagrams.

ghost use Rattle.std.specs.Prelude.{◌≡◌};
ghost use Rattle.drm_links.specs.Sink.{WritesWhole};
ghost use Rattle.report_text.specs.FaultWords.{IsReportable};
ghost use Rattle.report_text.specs.Report.{feed_line, refused_line, end_word, end_line};

use crate::words::taken_words;
use dcp_collect::Taken;
use drm_links::{Sink, WriteFault};
use recv_reading::EndWord;
use text_output::{Piece, write_pieces};

/// How many items of each kind a report tells, and how many datagrams were refused or disagreed.
#[derive(Clone, Copy, Debug, PartialEq, Eq)]
pub struct Sums {
    pub given: u64,
    pub missing: u64,
    pub bad: u64,
    pub refused: u64,
}

/// Writes the first line of the report of feed `k`.
/// Example: for feed 1 it writes `feed 1` and a line feed.
pub fn write_feed<O: Sink>(out: &mut O, k: u8) -> Result<(), WriteFault>
    ensures { WritesWhole result (O.known out.old) (O.known out.new) (feed_line k) }
{
    write_pieces(
        out,
        &[
            Piece::Words("feed "),
            Piece::Number(u64::from(k)),
            Piece::Words("\n"),
        ],
    )
}

/// Writes the line of the `n`-th datagram of a link, from 0 on, which was refused or disagreed.
pub fn write_refused<O: Sink>(out: &mut O, n: u64, taken: &Taken) -> Result<(), WriteFault>
    requires { IsReportable taken.now }
    ensures { WritesWhole result (O.known out.old) (O.known out.new) (refused_line n taken.now) }
{
    write_pieces(
        out,
        &[
            Piece::Words("refused "),
            Piece::Number(n),
            Piece::Words(" "),
            Piece::Words(taken_words(taken)),
            Piece::Words("\n"),
        ],
    )
}

/// Writes the last line of a report.
pub fn write_end<O: Sink>(out: &mut O, word: EndWord, sums: &Sums) -> Result<(), WriteFault>
    ensures { WritesWhole result (O.known out.old) (O.known out.new) (end_line word sums.now) }
{
    write_pieces(
        out,
        &[
            Piece::Words("end "),
            Piece::Words(end_word(word)),
            Piece::Words(" given "),
            Piece::Number(sums.given),
            Piece::Words(" missing "),
            Piece::Number(sums.missing),
            Piece::Words(" bad "),
            Piece::Number(sums.bad),
            Piece::Words(" refused "),
            Piece::Number(sums.refused),
            Piece::Words("\n"),
        ],
    )
}

fn end_word(word: EndWord) -> &'static str
    ensures { result.now ≡ end_word word }
{
    match word {
        EndWord::Frames => "frames",
        EndWord::Limit => "limit",
        EndWord::Idle => "idle",
        EndWord::Input => "input",
        EndWord::Paths => "paths",
    }
}
