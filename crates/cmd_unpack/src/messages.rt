//! Text messages, taken out of the last four bytes of a stream.

ghost use Rattle.std.specs.Prelude.{◌≡◌, ◌<◌, ◌≤◌, ◌+◌, ◌^◌, ℕ, List, OnOk, IsErr};
ghost use Rattle.drm_links.specs.Known.{HasCause};
ghost use Rattle.drm_links.specs.Sink.{WritesWhole};
ghost use Rattle.mdi_items.specs.Frame.{frame_of};
ghost use Rattle.mdi_items.specs.View.{IsWholeView};
ghost use Rattle.mod_feed.specs.Items.{FrameItem, item_of, IsReadItem};
ghost use Rattle.cmd_unpack.specs.Streams.{TextsOf, pieces_at};
ghost use Rattle.cmd_unpack.specs.Lines.{texts_end};
ghost use Rattle.cmd_unpack.specs.Taken.{AreBelow, TookMessages, TakesMessages, TakesPiece, LastPiece};

use crate::counts::Counts;
use crate::lines::{write_text, write_texts_end};
use crate::stream::stream_of;
use drm_links::{Sink, WriteFault};
use drm_text::TextJoiner;
use mdi_items::MdiView;
use mod_feed::FeedItem;

/// Takes the text messages out of a stream.
#[derive(Drop)]
pub(crate) struct MessageTaker {
    pub stream: u8,
    pub joiner: TextJoiner,
    pub counts: Counts,
}

impl MessageTaker {
    /// Takes the piece in a frame's stream, or a gap in its place, and writes the message that ends there, if one does.
    pub fn take<O: Sink>(&mut self, item: &FeedItem<'_>, out: &mut O) -> Result<(), WriteFault>
        requires stream { self.old.stream < 4 }
        requires room { AreBelow self.old.counts (2 ^ 126) }
        requires read { IsReadItem item.now }
        ensures takes { (items : List FrameItem) (text : List ℕ) → TookMessages self.old.stream items text self.old
            → TakesMessages self.old.stream items (item_of item.now) text result self.new (O.known out.old) (O.known out.new) }
        ensures stream { self.new.stream ≡ self.old.stream }
        ensures grows { OnOk result ((n : ℕ) → AreBelow self.old.counts n → AreBelow self.new.counts (n + 2 ^ 64)) }
        ensures cause { HasCause (O.known out.old) (O.known out.new) (IsErr result) }
    {
        match item {
            FeedItem::Frame { view, .. } => match last_piece(view, self.stream) {
                Some(piece) => take_piece(&mut self.joiner, &mut self.counts, piece, out),
                None => {
                    self.counts.bad += 1;
                    self.joiner.gap();
                    Ok(())
                }
            },
            FeedItem::Missing { .. } => {
                self.counts.missing += 1;
                self.joiner.gap();
                Ok(())
            }
            FeedItem::Bad { .. } => {
                self.counts.bad += 1;
                self.joiner.gap();
                Ok(())
            }
        }
    }

    /// Writes the last line.
    pub fn end<O: Sink>(&self, out: &mut O) -> Result<(), WriteFault>
        ensures { WritesWhole result (O.known out.old) (O.known out.new) (texts_end self.now.counts) }
    {
        write_texts_end(out, &self.counts)
    }
}

// Takes a piece, and writes the message that is whole with it, if one is.
fn take_piece<O: Sink>(
    joiner: &mut TextJoiner,
    counts: &mut Counts,
    piece: [u8; 4],
    out: &mut O,
) -> Result<(), WriteFault>
    requires room { AreBelow counts.old (2 ^ 126) }
    ensures { TakesPiece result joiner.old joiner.new piece counts.old counts.new (O.known out.old) (O.known out.new) }
{
    match joiner.piece(piece) {
        Some(message) => {
            counts.given += 1;
            write_text(out, message)
        }
        None => Ok(()),
    }
}

// The last four bytes of a stream.
fn last_piece(view: &MdiView<'_>, stream: u8) -> Option<[u8; 4]>
    requires view { IsWholeView view.now }
    requires stream { stream < 4 }
    ensures { LastPiece (pieces_at (TextsOf stream) (frame_of view.now) view.now.payload.now) result }
{
    let bytes = stream_of(view, stream)?;
    if bytes.len() < 4 {
        return None;
    }
    let at = bytes.len() - 4;
    Some([bytes[at], bytes[at + 1], bytes[at + 2], bytes[at + 3]])
}
