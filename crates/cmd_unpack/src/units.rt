//! Units, taken out of a stream's packets.

ghost use Rattle.std.specs.Prelude.{◌≡◌, ◌<◌, ◌≤◌, ◌+◌, ◌%◌, ◌/◌, ◌^◌, ◌∷◌, [], ◌++◌, map, Some, None, length, ℕ, OnOk, IsErr, is_some};
ghost use Rattle.drm_links.specs.Known.{HasCause};
ghost use Rattle.mod_feed.specs.Items.{item_of, IsReadItem};
ghost use Rattle.drm_links.specs.Sink.{WritesWhole};
ghost use Rattle.mdi_items.specs.Frame.{frame_of};
ghost use Rattle.mdi_items.specs.View.{IsWholeView};
ghost use Rattle.drm_data.specs.Joining.{JoinerEvent, ReadsDataPacket, answer_of, answer, after};
ghost use Rattle.cmd_unpack.specs.Streams.{UnitsOf, cut_into, pieces_at, entries_at, bad_at, missing_at};
ghost use Rattle.cmd_unpack.specs.Lines.{cut_line, answer_text, units_end};
ghost use Rattle.cmd_unpack.specs.Taken.{AreBelow, counted, ended_counts, TakesEntries, IsJoinerOf, WholePieces};

use crate::counts::Counts;
use crate::lines::{write_answer, write_cut, write_units_end};
use crate::stream::stream_of;
use drm_data::{Joined, Joiner};
use drm_links::{Sink, WriteFault};
use mdi_items::MdiView;
use mod_feed::FeedItem;

/// The bytes of a packet beside its data field.
const FRAME_BYTES: usize = 3;

/// Takes the units of one packet id out of a stream.
#[derive(Drop)]
pub(crate) struct UnitTaker {
    pub stream: u8,
    /// The data length of the packets.
    pub length: u8,
    pub joiner: Joiner,
    pub counts: Counts,
}

impl UnitTaker {
    /// Takes the packets in a frame's stream, or a gap in its place, and writes what is printed of them.
    pub fn take<O: Sink>(&mut self, item: &FeedItem<'_>, out: &mut O) -> Result<(), WriteFault>
        requires stream { self.old.stream < 4 }
        requires joiner { IsJoinerOf self.old }
        requires room { AreBelow self.old.counts (2 ^ 126) }
        requires read { IsReadItem item.now }
        ensures takes { (id : ℕ) → let what = UnitsOf self.old.stream id self.old.length in
            TakesEntries result self.old self.new (entries_at what (item_of item.now))
            (bad_at what (item_of item.now)) (missing_at (item_of item.now)) (O.known out.old) (O.known out.new) }
        ensures grows { OnOk result ((n : ℕ) → AreBelow self.old.counts n → AreBelow self.new.counts (n + 2 ^ 64)) }
        ensures cause { HasCause (O.known out.old) (O.known out.new) (IsErr result) }
    {
        match item {
            FeedItem::Frame { view, .. } => match whole_pieces(view, self.stream, self.length) {
                Some(bytes) => self.take_pieces(bytes, out),
                None => {
                    self.counts.bad += 1;
                    self.gap(out)
                }
            },
            FeedItem::Missing { .. } => {
                self.counts.missing += 1;
                self.gap(out)
            }
            FeedItem::Bad { .. } => {
                self.counts.bad += 1;
                self.gap(out)
            }
        }
    }

    // Takes packets one after another.
    fn take_pieces<O: Sink>(&mut self, bytes: &[u8], out: &mut O) -> Result<(), WriteFault>
        requires joiner { IsJoinerOf self.old }
        requires room { AreBelow self.old.counts (2 ^ 126) }
        requires whole { length bytes.now % (self.old.length + 3) ≡ 0 }
        ensures takes { TakesEntries result self.old self.new
            (map Some (cut_into (self.old.length + 3) (length bytes.now / (self.old.length + 3)) bytes.now)) 0 0
            (O.known out.old) (O.known out.new) }
        ensures grows { OnOk result ((n : ℕ) → AreBelow self.old.counts n → AreBelow self.new.counts (n + 2 ^ 64)) }
    {
        let size = usize::from(self.length) + FRAME_BYTES;
        let mut rest = bytes;
        'pieces: while rest.len() >= size {
            let (piece, behind) = rest.split_at(size);
            take_piece(&mut self.joiner, &mut self.counts, piece, out)?;
            rest = behind;
        }
        Ok(())
    }

    // Something is missing here.
    fn gap<O: Sink>(&mut self, out: &mut O) -> Result<(), WriteFault>
        requires joiner { IsJoinerOf self.old }
        requires room { AreBelow self.old.counts (2 ^ 127) }
        ensures takes { TakesEntries result self.old self.new (None ∷ []) 0 0 (O.known out.old) (O.known out.new) }
        ensures grows { OnOk result ((n : ℕ) → AreBelow self.old.counts n → AreBelow self.new.counts (n + 1)) }
    {
        let cut = self.joiner.gap();
        self.counts.cut += u128::from(cut);
        write_cut(out, cut)
    }

    /// Nothing more comes: a unit that is open is cut. Writes what is printed of that, and the last line.
    pub fn end<O: Sink>(&mut self, out: &mut O) -> Result<(), WriteFault>
        requires room { AreBelow self.old.counts (2 ^ 127) }
        ensures counts { self.new.counts ≡ ended_counts self.old }
        ensures writes { WritesWhole result (O.known out.old) (O.known out.new)
            (cut_line (is_some self.old.joiner.begun) ++ units_end (ended_counts self.old)) }
    {
        let cut = self.joiner.end();
        self.counts.cut += u128::from(cut);
        write_cut(out, cut)?;
        write_units_end(out, &self.counts)
    }
}

// Takes a packet, and writes what is printed of it.
fn take_piece<O: Sink>(
    joiner: &mut Joiner,
    counts: &mut Counts,
    piece: &[u8],
    out: &mut O,
) -> Result<(), WriteFault>
    requires room { AreBelow counts.old (2 ^ 127) }
    ensures takes { (event : JoinerEvent) × ReadsDataPacket joiner.old.length piece.now event
        × (joiner.new ≡ after joiner.old event)
        × (counts.new ≡ counted counts.old (answer joiner.old event))
        × WritesWhole result (O.known out.old) (O.known out.new) (answer_text (answer joiner.old event)) }
{
    let said = joiner.packet(piece);
    count(counts, &said);
    write_answer(out, &said)
}

fn count(counts: &mut Counts, said: &Joined<'_>)
    requires { AreBelow counts.old (2 ^ 127) }
    ensures { counts.new ≡ counted counts.old (answer_of said.now) }
{
    match said {
        Joined::Nothing => {}
        Joined::Unit(_) => counts.given += 1,
        Joined::Cut => counts.cut += 1,
        Joined::CutUnit(_) => {
            counts.given += 1;
            counts.cut += 1;
        }
        Joined::Refused { cut, .. } => {
            counts.cut += u128::from(*cut);
            counts.bad += 1;
        }
    }
}

// The bytes of a stream that is whole packets.
fn whole_pieces<'a>(view: &MdiView<'a>, stream: u8, length: u8) -> Option<&'a [u8]>
    requires view { IsWholeView view.now }
    requires stream { stream < 4 }
    ensures { (id : ℕ) → WholePieces (length + 3)
        (pieces_at (UnitsOf stream id length) (frame_of view.now) view.now.payload.now) result }
{
    let bytes = stream_of(view, stream)?;
    if bytes.len() % (usize::from(length) + FRAME_BYTES) == 0 {
        Some(bytes)
    } else {
        None
    }
}
