//! The line of a multiplex description.

ghost use Rattle.std.specs.Prelude.{◌≡◌, ◌++◌, codes};
ghost use Rattle.std.specs.List.{flat_map};
ghost use Rattle.drm_bits.specs.Description.{IsDescription, described};
ghost use Rattle.drm_links.specs.Sink.{WritesWhole};
ghost use Rattle.report_dump.specs.Lines.{mux_line, protection_text, part_text};

use drm_links::{Sink, WriteFault, write_all};
use drm_mux::{MuxDesc, Part};
use text_output::{Piece, write_pieces};

/// Writes the protections, and the lengths of the parts of each stream.
pub(crate) fn write_mux<O: Sink>(out: &mut O, mux: &MuxDesc) -> Result<(), WriteFault>
    requires { IsDescription mux.now }
    ensures { WritesWhole result (O.known out.old) (O.known out.new) (mux_line mux.now) }
{
    write_protections(out, mux)?;
    write_parts(out, &mux.parts[..usize::from(mux.count)])?;
    write_all(out, b"\n")
}

fn write_protections<O: Sink>(out: &mut O, mux: &MuxDesc) -> Result<(), WriteFault>
    ensures { WritesWhole result (O.known out.old) (O.known out.new) (protection_text mux.now) }
{
    write_pieces(
        out,
        &[
            Piece::Words("mux "),
            Piece::Number(u64::from(mux.prot_a)),
            Piece::Words(" "),
            Piece::Number(u64::from(mux.prot_b)),
        ],
    )
}

fn write_parts<O: Sink>(out: &mut O, parts: &[Part]) -> Result<(), WriteFault>
    ensures { WritesWhole result (O.known out.old) (O.known out.new) (flat_map part_text parts.now) }
{
    for part in parts {
        write_part(out, *part)?;
    }
    Ok(())
}

fn write_part<O: Sink>(out: &mut O, part: Part) -> Result<(), WriteFault>
    ensures { WritesWhole result (O.known out.old) (O.known out.new) (part_text part) }
{
    write_pieces(
        out,
        &[
            Piece::Words(" "),
            Piece::Number(u64::from(part.a)),
            Piece::Words("+"),
            Piece::Number(u64::from(part.b)),
        ],
    )
}
