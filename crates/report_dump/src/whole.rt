//! An AF packet, layer by layer.

ghost use Rattle.std.specs.Prelude.{◌≡◌, ◌++◌, List, Option, take, if◌then◌else◌, codes};
ghost use Rattle.drm_links.specs.Sink.{WritesWhole};
ghost use Rattle.drm_sdc.specs.declared.block.Block.{Block};
ghost use Rattle.dcp_tag.specs.Tag.{TagItem};
ghost use Rattle.dcp_af.specs.Packet.{sync, IsAf};
ghost use Rattle.dcp_af.specs.Reading.{packet_of};
ghost use Rattle.mdi_items.specs.Frame.{frame_of};
ghost use Rattle.mdi_items.specs.Mdi.{IsMdi};
ghost use Rattle.mdi_items.specs.View.{IsWholeView};
ghost use Rattle.report_text.specs.FaultWords.{mdi_words};
ghost use Rattle.text_output.specs.Text.{piece_text};
ghost use Rattle.report_dump.specs.PacketContent.{AreItems, IsBlockOf};
ghost use Rattle.report_dump.specs.Lines.{af_line, bad_line};
ghost use Rattle.report_dump.specs.Text.{front_text, frame_text};
ghost use Rattle.report_dump.specs.Shown.{ShowsPacket};

use crate::bad::{plain, write_bad};
use crate::frame::write_frame;
use crate::packet::{ShowFault, answer};
use crate::tags::write_tags;
use dcp_af::{Af, read_af};
use drm_links::{Sink, WriteFault};
use mdi_items::{MdiFault, MdiView, read_mdi};
use report_text::{af_words, mdi_words};
use text_output::{Piece, write_pieces};

/// Writes the lines of the AF packet at a byte of the capture.
pub(crate) fn write_af<O: Sink>(out: &mut O, at: u64, bytes: &[u8]) -> Result<bool, ShowFault>
    requires { take 2 bytes.now ≡ sync }
    ensures { ShowsPacket result (O.known out.old) (O.known out.new) at bytes.now }
{
    match read_af(bytes) {
        Ok(af) => write_whole(out, at, bytes, &af),
        Err(fault) => answer(write_bad(out, at, plain(af_words(fault))), true),
    }
}

fn write_whole<O: Sink>(out: &mut O, at: u64, bytes: &[u8], af: &Af<'_>) -> Result<bool, ShowFault>
    requires { IsAf (packet_of af.now) bytes.now }
    ensures { ShowsPacket result (O.known out.old) (O.known out.new) at bytes.now }
{
    match read_mdi(af.payload) {
        Ok(view) => answer(write_framed(out, at, af, &view), false),
        Err(fault) => answer(write_unframed(out, at, af, fault), true),
    }
}

fn write_framed<O: Sink>(
    out: &mut O,
    at: u64,
    af: &Af<'_>,
    view: &MdiView<'_>,
) -> Result<(), WriteFault>
    requires whole { IsWholeView view.now }
    requires frame { IsMdi (frame_of view.now) view.now.payload.now }
    ensures { (items : List TagItem) (block : Option Block) → AreItems items af.now.payload.now
        → IsBlockOf view.now.payload.now view.now.sdc block → WritesWhole result (O.known out.old) (O.known out.new)
        (front_text at (packet_of af.now) items ++ frame_text (frame_of view.now) block) }
{
    write_front(out, at, af)?;
    write_frame(out, view)
}

fn write_unframed<O: Sink>(
    out: &mut O,
    at: u64,
    af: &Af<'_>,
    fault: MdiFault,
) -> Result<(), WriteFault>
    ensures { (items : List TagItem) → AreItems items af.now.payload.now → WritesWhole result (O.known out.old) (O.known out.new)
        (front_text at (packet_of af.now) items ++ bad_line at (mdi_words fault)) }
{
    write_front(out, at, af)?;
    write_bad(out, at, mdi_words(fault))
}

// The packet's own line and those of its items.
fn write_front<O: Sink>(out: &mut O, at: u64, af: &Af<'_>) -> Result<(), WriteFault>
    ensures { (items : List TagItem) → AreItems items af.now.payload.now → WritesWhole result (O.known out.old) (O.known out.new)
        (front_text at (packet_of af.now) items) }
{
    write_line(out, at, af)?;
    write_tags(out, af.payload)
}

fn write_line<O: Sink>(out: &mut O, at: u64, af: &Af<'_>) -> Result<(), WriteFault>
    ensures { WritesWhole result (O.known out.old) (O.known out.new) (af_line at (packet_of af.now)) }
{
    write_pieces(
        out,
        &[
            Piece::Words("af "),
            Piece::Number(at),
            Piece::Words(" seq "),
            Piece::Number(u64::from(af.seq)),
            Piece::Words(" len "),
            Piece::Number(af.payload.len() as u64),
            Piece::Words(" crc "),
            yes_or_no(af.checked),
            Piece::Words("\n"),
        ],
    )
}

fn yes_or_no(checked: bool) -> Piece<'static>
    ensures { piece_text result ≡ (if checked then codes "yes" else codes "no") }
{
    Piece::Words(if checked { "yes" } else { "no" })
}
