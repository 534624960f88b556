//! The line of a logical frame.

ghost use Rattle.std.specs.Prelude.{◌≡◌};
ghost use Rattle.std.specs.List.{flat_map};
ghost use Rattle.drm_links.specs.Sink.{WritesWhole};
ghost use Rattle.mdi_items.specs.Frame.{frame_of};
ghost use Rattle.mdi_items.specs.View.{IsWholeView};
ghost use Rattle.report_text.specs.FrameLine.{frame_line};
ghost use Rattle.report_text.specs.FrameParts.{part_text};

use crate::block::write_block;
use crate::description::write_description;
use crate::streams::write_streams;
use LinePart::Text;
use Piece::{Hex, Number, Words};
use drm_links::{Sink, WriteFault};
use mdi_items::MdiView;
use text_output::{Piece, write_piece};

/// Writes the line of a frame.
pub(crate) fn write_frame<O: Sink>(
    out: &mut O,
    index: u64,
    view: &MdiView<'_>,
) -> Result<(), WriteFault>
    requires { IsWholeView view.now }
    ensures { WritesWhole result (O.known out.old) (O.known out.new) (frame_line index (frame_of view.now) view.now.payload.now) }
{
    write_parts(out, view, &parts(index, view))
}

/// A part of the line: a piece of text, or what is written straight out of the frame.
#[derive(Clone, Copy)]
pub(crate) enum LinePart<'a> {
    Text(Piece<'a>),
    Block,
    Description,
    Streams,
}

const PARTS: usize = 15;

fn parts<'a>(index: u64, view: &'a MdiView<'_>) -> [LinePart<'a>; PARTS]
    ensures { flat_map (part_text (frame_of view.now) view.now.payload.now) result
        ≡ frame_line index (frame_of view.now) view.now.payload.now }
{
    [
        Text(Words("frame ")),
        Text(Number(index)),
        Text(Words(" dlfc ")),
        Text(Number(u64::from(view.dlfc))),
        Text(Words(" mode ")),
        Text(Words(view.mode.letter())),
        Text(Words(" fac ")),
        Text(Hex(&view.fac_bytes)),
        Text(Words(" sdc ")),
        LinePart::Block,
        Text(Words(" mux ")),
        LinePart::Description,
        Text(Words(" msc ")),
        LinePart::Streams,
        Text(Words("\n")),
    ]
}

// Writes the parts, one after another.
fn write_parts<O: Sink>(
    out: &mut O,
    view: &MdiView<'_>,
    parts: &[LinePart<'_>],
) -> Result<(), WriteFault>
    requires { IsWholeView view.now }
    ensures { WritesWhole result (O.known out.old) (O.known out.new)
        (flat_map (part_text (frame_of view.now) view.now.payload.now) parts.now) }
{
    for part in parts {
        write_part(out, view, *part)?;
    }
    Ok(())
}

fn write_part<O: Sink>(
    out: &mut O,
    view: &MdiView<'_>,
    part: LinePart<'_>,
) -> Result<(), WriteFault>
    requires { IsWholeView view.now }
    ensures { WritesWhole result (O.known out.old) (O.known out.new) (part_text (frame_of view.now) view.now.payload.now part.entry) }
{
    match part {
        LinePart::Text(piece) => write_piece(out, piece),
        LinePart::Block => write_block(out, view),
        LinePart::Description => write_description(out, view),
        LinePart::Streams => write_streams(out, &view.mux, &view.streams, view.payload),
    }
}
