//! The line behind those of all packets.

ghost use Rattle.drm_links.specs.Sink.{WritesWhole};
ghost use Rattle.report_dump.specs.Lines.{end_packets_line};

use drm_links::{Sink, WriteFault};
use text_output::{Piece, write_pieces};

/// Writes how many packets a capture has, and how many bytes.
pub fn write_end_packets<O: Sink>(out: &mut O, packets: u64, bytes: u64) -> Result<(), WriteFault>
    ensures { WritesWhole result (O.known out.old) (O.known out.new) (end_packets_line packets bytes) }
{
    write_pieces(
        out,
        &[
            Piece::Words("end packets "),
            Piece::Number(packets),
            Piece::Words(" bytes "),
            Piece::Number(bytes),
            Piece::Words("\n"),
        ],
    )
}
