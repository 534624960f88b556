//! The streams of a frame.

ghost use Rattle.std.specs.Prelude.{◌≡◌, ◌<◌, None, ◌-◌};
ghost use Rattle.mdi_items.specs.Frame.{frame_of};
ghost use Rattle.mdi_items.specs.View.{IsWholeView};
ghost use Rattle.cmd_unpack.specs.Streams.{stream_of};
ghost use Rattle.cmd_unpack.specs.Lent.{lent};

use mdi_items::MdiView;

/// The bytes of a stream, where the frame has it.
pub(crate) fn stream_of<'a>(view: &MdiView<'a>, stream: u8) -> Option<&'a [u8]>
    requires view { IsWholeView view.now }
    requires stream { stream < 4 }
    ensures { lent result ≡ stream_of stream (frame_of view.now) view.now.payload.now }
{
    if stream >= view.mux.count {
        return None;
    }
    let at = view.streams.at[usize::from(stream)];
    let len = view.streams.len[usize::from(stream)];
    Some(&view.payload[at..at + len])
}
