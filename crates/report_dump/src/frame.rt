//! The lines of a frame.

ghost use Rattle.std.specs.Prelude.{◌≡◌, Option};
ghost use Rattle.drm_links.specs.Sink.{WritesWhole};
ghost use Rattle.drm_fac.specs.Fac.{FacFits};
ghost use Rattle.drm_sdc.specs.declared.block.Block.{Block};
ghost use Rattle.mdi_items.specs.Frame.{frame_of};
ghost use Rattle.mdi_items.specs.Mdi.{IsMdi};
ghost use Rattle.mdi_items.specs.View.{IsWholeView};
ghost use Rattle.report_dump.specs.PacketContent.{IsBlockOf};
ghost use Rattle.report_dump.specs.Lines.{mdi_line, fac_text};
ghost use Rattle.report_dump.specs.Text.{frame_text, block_text};

use crate::block::write_block;
use crate::mux::write_mux;
use drm_fac::Fac;
use drm_links::{Sink, WriteFault, write_all};
use mdi_items::MdiView;
use report_text::write_fac;
use text_output::{Piece, write_pieces};

/// Writes the lines of a frame, with those of its block where it has one.
pub(crate) fn write_frame<O: Sink>(out: &mut O, view: &MdiView<'_>) -> Result<(), WriteFault>
    requires whole { IsWholeView view.now }
    requires frame { IsMdi (frame_of view.now) view.now.payload.now }
    ensures { (block : Option Block) → IsBlockOf view.now.payload.now view.now.sdc block
        → WritesWhole result (O.known out.old) (O.known out.new) (frame_text (frame_of view.now) block) }
{
    write_head(out, view)?;
    write_fac_line(out, &view.fac)?;
    write_mux(out, &view.mux)?;
    write_block_lines(out, view)
}

fn write_head<O: Sink>(out: &mut O, view: &MdiView<'_>) -> Result<(), WriteFault>
    ensures { WritesWhole result (O.known out.old) (O.known out.new) (mdi_line (frame_of view.now)) }
{
    write_pieces(
        out,
        &[
            Piece::Words("mdi dlfc "),
            Piece::Number(u64::from(view.dlfc)),
            Piece::Words(" mode "),
            Piece::Words(view.mode.letter()),
            Piece::Words(" revision "),
            Piece::Number(u64::from(view.major)),
            Piece::Words("."),
            Piece::Number(u64::from(view.minor)),
            Piece::Words("\n"),
        ],
    )
}

fn write_fac_line<O: Sink>(out: &mut O, fac: &Fac) -> Result<(), WriteFault>
    requires { FacFits fac.now }
    ensures { WritesWhole result (O.known out.old) (O.known out.new) (fac_text fac.now) }
{
    write_all(out, b"fac ")?;
    write_fac(out, fac)
}

fn write_block_lines<O: Sink>(out: &mut O, view: &MdiView<'_>) -> Result<(), WriteFault>
    requires whole { IsWholeView view.now }
    requires frame { IsMdi (frame_of view.now) view.now.payload.now }
    ensures { (block : Option Block) → IsBlockOf view.now.payload.now view.now.sdc block
        → WritesWhole result (O.known out.old) (O.known out.new) (block_text block) }
{
    match &view.sdc {
        None => Ok(()),
        Some(span) => write_block(out, view.payload, span),
    }
}
