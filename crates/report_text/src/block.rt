//! The SDC block of a frame, four bits a digit.

ghost use Rattle.std.specs.Prelude.{◌≡◌, ◌+◌, ◌≤◌, length};
ghost use Rattle.dcp_tag.specs.Tag.{bytes_for};
ghost use Rattle.drm_links.specs.Sink.{WritesWhole};
ghost use Rattle.mdi_items.specs.View.{IsWholeView};
ghost use Rattle.report_text.specs.FrameLine.{block_bits, block_text};

use crate::hex_bits::write_bits;
use drm_bits::Bits;
use drm_links::{Sink, WriteFault, write_all};
use mdi_items::{MdiView, SdcSpan};

/// Writes the digits of the block, where there is one.
pub(crate) fn write_block<O: Sink>(out: &mut O, view: &MdiView<'_>) -> Result<(), WriteFault>
    requires { IsWholeView view.now }
    ensures { WritesWhole result (O.known out.old) (O.known out.new) (block_text view.now.payload.now view.now.sdc) }
{
    match &view.sdc {
        None => write_all(out, b"-"),
        Some(span) => write_bits(out, block_bits(view.payload, span)),
    }
}

/// The bits of the block, without those in front of it.
pub fn block_bits<'a>(payload: &'a [u8], span: &SdcSpan) -> Bits<'a>
    requires { span.now.at + bytes_for span.now.bits ≤ length payload.now }
    ensures { result ≡ block_bits payload.now span.now }
{
    let mut bits = Bits::new(&payload[span.at..], span.bits as usize);
    if span.bits % u8::BITS == 0 {
        let _ = bits.take(4);
    }
    bits
}
