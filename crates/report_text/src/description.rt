//! The multiplex description of a frame, as the value of its `sdci`.

ghost use Rattle.drm_links.specs.Sink.{WritesWhole};
ghost use Rattle.mdi_items.specs.View.{IsWholeView};
ghost use Rattle.report_text.specs.FrameLine.{description_text};

use crate::hex_bits::write_bits;
use drm_bits::Bits;
use drm_links::{Sink, WriteFault};
use drm_mux::write_sdci;
use mdi_items::MdiView;

/// Writes the digits of the description.
pub(crate) fn write_description<O: Sink>(out: &mut O, view: &MdiView<'_>) -> Result<(), WriteFault>
    requires { IsWholeView view.now }
    ensures { WritesWhole result (O.known out.old) (O.known out.new) (description_text view.now.mux) }
{
    let mut value = [0; 13];
    let len = write_sdci(&view.mux, &mut value);
    write_bits(out, Bits::new(&value[..len], 8 * len))
}
