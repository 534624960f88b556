//! Whoever takes the items of a capture.

ghost use Rattle.std.specs.Prelude.{◌≡◌, ◌≤◌, ◌+◌, ◌^◌, ℕ, List, OnOk, IsErr};
ghost use Rattle.drm_links.specs.Known.{HasCause};
ghost use Rattle.mod_feed.specs.Items.{FrameItem, item_of, IsReadItem};
ghost use Rattle.cmd_unpack.specs.Streams.{PayloadKind};
ghost use Rattle.cmd_unpack.specs.Lines.{is_clean};
ghost use Rattle.cmd_unpack.specs.Taken.{AreBelow, counts_in, IsTakerReady, TakerTook, TakesItem, EndsText};

use crate::counts::is_clean;
use crate::messages::MessageTaker;
use crate::units::UnitTaker;
use drm_links::{Sink, WriteFault};
use mod_feed::FeedItem;

/// Takes units, or text messages, out of one stream of the frames.
#[derive(Drop)]
pub(crate) enum Taker {
    Units(UnitTaker),
    Messages(MessageTaker),
}

impl Taker {
    /// Takes an item, and writes what is printed of it.
    pub fn take<O: Sink>(&mut self, item: &FeedItem<'_>, out: &mut O) -> Result<(), WriteFault>
        requires ready { IsTakerReady self.old }
        requires room { AreBelow (counts_in self.old) (2 ^ 126) }
        requires read { IsReadItem item.now }
        ensures takes { (what : PayloadKind) (items : List FrameItem) (text : List ℕ) → TakerTook what items text self.old
            → TakesItem what items (item_of item.now) text result self.new (O.known out.old) (O.known out.new) }
        ensures ready { OnOk result (IsTakerReady self.new) }
        ensures grows { OnOk result ((n : ℕ) → AreBelow (counts_in self.old) n → AreBelow (counts_in self.new) (n + 2 ^ 64)) }
        ensures cause { HasCause (O.known out.old) (O.known out.new) (IsErr result) }
    {
        match self {
            Taker::Units(units) => units.take(item, out),
            Taker::Messages(messages) => messages.take(item, out),
        }
    }

    /// Writes what is printed at the end.
    pub fn end<O: Sink>(&mut self, out: &mut O) -> Result<(), WriteFault>
        requires room { AreBelow (counts_in self.old) (2 ^ 127) }
        ensures ends { (what : PayloadKind) (items : List FrameItem) (text : List ℕ) → TakerTook what items text self.old
            → EndsText what items text result self.new (O.known out.old) (O.known out.new) }
        ensures cause { HasCause (O.known out.old) (O.known out.new) (IsErr result) }
    {
        match self {
            Taker::Units(units) => units.end(out),
            Taker::Messages(messages) => messages.end(out),
        }
    }

    /// Whether nothing is cut, bad or missing.
    pub fn is_clean(&self) -> bool
        ensures { result ≡ is_clean (counts_in self.now) }
    {
        match self {
            Taker::Units(units) => is_clean(&units.counts),
            Taker::Messages(messages) => is_clean(&messages.counts),
        }
    }
}
