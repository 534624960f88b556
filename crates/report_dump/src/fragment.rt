//! The line of a fragment.

ghost use Rattle.std.specs.Prelude.{◌≡◌, ◌++◌, codes};
ghost use Rattle.drm_links.specs.Sink.{WritesWhole};
ghost use Rattle.dcp_pft.specs.Reading.{pft_of};
ghost use Rattle.text_output.specs.Text.{piece_text, text_of};
ghost use Rattle.report_dump.specs.Lines.{fragment_line, two_numbers, code_text, addr_text};

use dcp_pft::{Addr, Fragment, Rs};
use drm_links::{Sink, WriteFault};
use text_output::{Piece, write_pieces};

const PIECES: usize = 19;

/// Writes the line of the fragment at a byte of the capture.
pub(crate) fn write_fragment<O: Sink>(
    out: &mut O,
    at: u64,
    fragment: &Fragment<'_>,
) -> Result<(), WriteFault>
    ensures { WritesWhole result (O.known out.old) (O.known out.new) (fragment_line at (pft_of fragment.now)) }
{
    write_pieces(out, &pieces(at, fragment))
}

fn pieces(at: u64, fragment: &Fragment<'_>) -> [Piece<'static>; PIECES]
    ensures { text_of result ≡ fragment_line at (pft_of fragment.now) }
{
    let code = code_pieces(fragment.rs);
    let addr = addr_pieces(fragment.addr);
    [
        Piece::Words("pft "),
        Piece::Number(at),
        Piece::Words(" seq "),
        Piece::Number(u64::from(fragment.seq)),
        Piece::Words(" index "),
        Piece::Number(u64::from(fragment.index)),
        Piece::Words(" of "),
        Piece::Number(u64::from(fragment.count)),
        Piece::Words(" len "),
        Piece::Number(fragment.payload.len() as u64),
        Piece::Words(" fec "),
        code.0,
        code.1,
        code.2,
        Piece::Words(" addr "),
        addr.0,
        addr.1,
        addr.2,
        Piece::Words("\n"),
    ]
}

fn code_pieces(rs: Option<Rs>) -> (Piece<'static>, Piece<'static>, Piece<'static>)
    ensures { piece_text result.0 ++ (piece_text result.1 ++ piece_text result.2) ≡ code_text rs }
{
    match rs {
        Some(rs) => two_numbers(u64::from(rs.k), u64::from(rs.z)),
        None => nothing(),
    }
}

fn addr_pieces(addr: Option<Addr>) -> (Piece<'static>, Piece<'static>, Piece<'static>)
    ensures { piece_text result.0 ++ (piece_text result.1 ++ piece_text result.2) ≡ addr_text addr }
{
    match addr {
        Some(addr) => two_numbers(u64::from(addr.source), u64::from(addr.dest)),
        None => nothing(),
    }
}

fn two_numbers(first: u64, second: u64) -> (Piece<'static>, Piece<'static>, Piece<'static>)
    ensures { piece_text result.0 ++ (piece_text result.1 ++ piece_text result.2) ≡ two_numbers first second }
{
    (
        Piece::Number(first),
        Piece::Words(" "),
        Piece::Number(second),
    )
}

fn nothing() -> (Piece<'static>, Piece<'static>, Piece<'static>)
    ensures { piece_text result.0 ++ (piece_text result.1 ++ piece_text result.2) ≡ codes "-" }
{
    (Piece::Words("-"), Piece::Words(""), Piece::Words(""))
}
