//! What a receiver sees in an item.

ghost use Rattle.std.specs.Prelude.{◌≡◌, ◌<◌};
ghost use Rattle.std.specs.Option.{ForSome};
ghost use Rattle.drm_reconfiguration.specs.Seen.{IsSeenInRange};
ghost use Rattle.mod_feed.specs.Items.{item_of, position_of, seen_in, IsReadItem};

use crate::FeedItem;
use drm_reconfiguration::{Seen, Signature};

/// What is seen in an item: nothing where it is no frame.
pub(crate) fn seen_in(item: &FeedItem<'_>) -> Option<Seen>
    requires { IsReadItem item.now }
    ensures value { result ≡ seen_in (item_of item.now) }
    ensures range { ForSome result IsSeenInRange }
{
    let FeedItem::Frame { view, .. } = item else {
        return None;
    };
    let channel = view.fac.channel;
    Some(Seen {
        position: position_of(channel.identity),
        index: channel.index,
        signature: Signature::new(view.mode, channel, view.mux),
    })
}

// The place of a frame in its super frame, by its identity.
fn position_of(identity: u8) -> u8
    ensures value { result ≡ position_of identity }
    ensures range { identity < 4 → result < 3 }
{
    if identity == 3 { 0 } else { identity }
}
