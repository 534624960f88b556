//! A schedule with live streams over a group of links.

ghost use Rattle.std.specs.Prelude.{ℕ, ◌≡◌, ◌≤◌, length, IfErr, IsErr};
ghost use Rattle.drm_links.specs.Known.{HasCause};
ghost use Rattle.drm_server.specs.Stretch.{first_in};
ghost use Rattle.live_server.specs.Links.{ServedLive};
ghost use Rattle.live_server.specs.Loading.{AsksForNothing};
ghost use Rattle.live_server.specs.Turns.{TurnsTold};

use crate::feed::{Apart, LiveFeed};
use crate::feeding::{asks_for_nothing, load};
use cmd_faults::Fault;
use drm_links::{Group, Source};
use drm_schedule::Live;
use drm_server::{Server, Stretch};

/// Sends the datagrams of the frames of this stretch over a group, frame by frame, over one link after another, where the live
/// streams take their bytes from input by way of this room: before a frame is sent its piece is read, and no more. Once input has ended
/// the frames have their own content. Before each frame but the first a link rests for `pace` milliseconds. A link that fails is asked
/// for nothing any more, and the others go on; where none is left nothing more is read. Answers whether each frame that was sent had its
/// piece.
pub fn serve_live_links<G: Group, I: Source>(
    server: &mut Server<'_>,
    stretch: Stretch,
    pace: u32,
    live: &Live,
    input: &mut I,
    scratch: &mut [u8],
    group: &mut G,
) -> Result<bool, Fault>
    requires { 32760 ≤ length scratch.old }
    ensures served { ServedLive live.now server.old.base stretch pace result (I.known input.old) (I.known input.new)
        (G.up group.old) (G.up group.new) (G.known group.old) (G.known group.new) }
    ensures nothing { AsksForNothing live.now input.old input.new result }
    ensures same_count { length (G.up group.new) ≡ length (G.up group.old) }
    ensures fault { IfErr result (λ fault. fault ≡ Fault.Read) }
    ensures cause { HasCause (I.known input.old) (I.known input.new) (IsErr result) }
    ensures base { server.new.base ≡ server.old.base }
{
    let mut feed = Apart { input, group };
    serve_feed(server, stretch, pace, live, scratch, &mut feed)
}

/// The same over a feed, which may tell in which order pieces are read and frames are sent.
pub fn serve_feed<I, F: LiveFeed<I>>(
    server: &mut Server<'_>,
    stretch: Stretch,
    pace: u32,
    live: &Live,
    scratch: &mut [u8],
    feed: &mut F,
) -> Result<bool, Fault>
    requires { 32760 ≤ length scratch.old }
    ensures served { ServedLive live.now server.old.base stretch pace result (F.input feed.old) (F.input feed.new)
        (F.up feed.old) (F.up feed.new) (F.history feed.old) (F.history feed.new) }
    ensures turns { TurnsTold live.now server.old.base (first_in stretch) result (F.turns feed.old) (F.turns feed.new) }
    ensures nothing { AsksForNothing live.now (F.source feed.old) (F.source feed.new) result }
    ensures same_source { F.source_name feed.new ≡ F.source_name feed.old }
    ensures same_links { F.links_name feed.new ≡ F.links_name feed.old }
    ensures same_count { length (F.up feed.new) ≡ length (F.up feed.old) }
    ensures fault { IfErr result (λ fault. fault ≡ Fault.Read) }
    ensures cause { HasCause (F.input feed.old) (F.input feed.new) (IsErr result) }
    ensures base { server.new.base ≡ server.old.base }
{
    // For its clause alone.
    asks_for_nothing(live);
    let mut ended = false;
    for n in 0..server.frames_in(stretch) {
        if feed.none_left() {
            break;
        }
        load(server, stretch.frame(n), live, feed, scratch, &mut ended)?;
        feed.send_frame(server, n, pace);
    }
    Ok(!ended)
}
