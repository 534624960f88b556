//! A feed, which follows the items of one modulator.

ghost use Rattle.std.specs.Prelude.{◌≡◌, ◌+◌};
ghost use Rattle.drm_reconfiguration.specs.Tracker.{new_tracker, answered, stepped};
ghost use Rattle.dcp_collect.specs.View.{item_of as given_of};
ghost use Rattle.mod_feed.specs.Feeding.{IsNextOut};
ghost use Rattle.mod_feed.specs.Items.{FrameItem, item_of, IsItemOf, seen_in, IsReadItem};

use crate::FeedItem;
use crate::read::read_item;
use crate::seen::seen_in;
use dcp_collect::Out;
use drm_reconfiguration::{Before, Tracker};
use std::marker::Model;

/// An item, and the switch or the resumption that stands before it.
#[derive(Clone, Copy, Debug, PartialEq, Eq)]
pub struct Step<'a> {
    pub before: Option<Before>,
    pub item: FeedItem<'a>,
}

/// Gives the items of one modulator, one call for each packet. A feed is seen as its tracker.
#[derive(Debug, Drop)]
pub struct Feed {
    tracker: Tracker,
}

impl Model for Feed {
    ghost use Rattle.drm_reconfiguration.specs.Tracker.{TrackerState};

    ghost Value = { TrackerState };

    ghost view = { λ f. f.tracker };
}

impl Feed {
    /// A feed of no item yet.
    pub fn new() -> Feed
        ensures { result ≡ new_tracker }
    {
        Feed {
            tracker: Tracker::new(),
        }
    }

    /// Gives the item of what a collector gives, and what stands before it. A frame is lent out of the packet.
    pub fn step<'a>(&mut self, out: Out<'a>) -> Step<'a>
        requires { IsNextOut self.old out }
        // The item is that of what a collector gives, and there is no other.
        ensures item { IsItemOf (given_of out.entry) (item_of result.item) }
        ensures only { (item : FrameItem) → IsItemOf (given_of out.entry) item → item_of result.item ≡ item }
        // What stands before it, and what is known afterwards, is by what is seen in it.
        ensures before { result.before ≡ answered self.old (seen_in (item_of result.item)) }
        ensures after { self.new ≡ stepped self.old (seen_in (item_of result.item)) }
        ensures counted { self.new.calls ≡ self.old.calls + 1 }
        // The pieces of a frame can be lent out of its payload, and a fault is one that reading can meet.
        ensures read { IsReadItem result.item }
    {
        let item = read_item(out);
        let before = self.tracker.step(seen_in(&item));
        Step { before, item }
    }
}
