//! The line of an exercise.

ghost use Rattle.std.specs.Prelude.{◌≡◌, ◌≤◌, ◌<◌, ◌+◌, ◌==◌, length, drop};
ghost use Rattle.std.specs.Int.{from_bool};
ghost use Rattle.std.specs.List.{position};
ghost use Rattle.drm_links.specs.Sink.{WritesWhole};
ghost use Rattle.cmd_exercise.specs.Exercise as exercise;

use drm_links::{Sink, WriteFault};
use text_output::{Piece, write_pieces};

/// Writes the line of an exercise of this size in which so many datagrams were delivered, and this was reported, with this
/// check value.
pub(crate) fn write_line<O: Sink>(
    out: &mut O,
    n: u32,
    delivered: u64,
    report: &[u8],
    check: u16,
) -> Result<(), WriteFault>
    requires { n ≤ 1000 }
    ensures { WritesWhole result (O.known out.old) (O.known out.new) (exercise.line n delivered report.now check) }
{
    let check = check.to_be_bytes();
    write_pieces(
        out,
        &[
            Piece::Words("exercise "),
            Piece::Number(u64::from(n)),
            Piece::Words(" datagrams "),
            Piece::Number(delivered),
            Piece::Words(" frames "),
            Piece::Number(3 * u64::from(n)),
            Piece::Words(" given "),
            Piece::Number(lines_with(report, b"frame ")),
            Piece::Words(" missing "),
            Piece::Number(lines_with(report, b"missing ")),
            Piece::Words(" bad "),
            Piece::Number(lines_with(report, b"bad ")),
            Piece::Words(" switches "),
            Piece::Number(lines_with(report, b"switch ")),
            Piece::Words(" resumed "),
            Piece::Number(lines_with(report, b"resumed ")),
            Piece::Words(" text "),
            Piece::Hex(&check),
            Piece::Words("\n"),
        ],
    )
}

// How many lines of a text begin so.
fn lines_with(text: &[u8], front: &[u8]) -> u64
    ensures { result ≡ exercise.lines_with front.now text.now }
{
    let mut count = 0;
    let mut rest = text;
    while let Some(end) = line_end(rest) {
        count += one_if_begins(&rest[..end], front);
        rest = behind(rest, end);
    }
    count + one_if_begins(rest, front)
}

fn one_if_begins(line: &[u8], front: &[u8]) -> u64
    ensures { result ≡ from_bool (exercise.begins front.now line.now) }
{
    u64::from(line.starts_with(front))
}

// Where the first line of a text ends that isn't the last one.
fn line_end(text: &[u8]) -> Option<usize>
    ensures { result ≡ position (λ byte. byte == 10) text.now }
{
    text.iter().position(|byte| *byte == b'\n')
}

// What stands behind this line end.
fn behind(text: &[u8], end: usize) -> &[u8]
    requires { end < length text.now }
    ensures { result.now ≡ drop (end + 1) text.now }
{
    &text[end + 1..]
}
