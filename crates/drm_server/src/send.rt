//! A frame over a group of links.

ghost use Rattle.std.specs.Prelude.{◌≡◌, length};
ghost use Rattle.drm_links.specs.History.{GroupTells};
ghost use Rattle.drm_links.specs.Calls.{CallsMake};
ghost use Rattle.drm_server.specs.Serving.{pause, turn, ServesFrame};

use crate::Server;
use dcp_sender::CutPacket;
use drm_links::Group;

/// Sends the datagrams of the frame that is loaded, the one behind `n` others, over one link of the group after another, unless it
/// has failed: behind a rest of `pace` milliseconds where others were sent before, up to a datagram that is refused.
pub fn serve_frame<G: Group>(server: &Server<'_>, n: u32, pace: u32, group: &mut G)
    ensures made { ServesFrame server.now.plan server.now.frame pace n
        (G.up group.old) (G.up group.new) (G.known group.old) (G.known group.new) }
    ensures same_count { length (G.up group.new) ≡ length (G.up group.old) }
{
    let datagrams = server.loaded.datagrams();
    for k in 0..group.len() {
        serve_turn(datagrams, n, k, pace, group);
    }
}

// The same over the k-th link.
fn serve_turn<G: Group>(datagrams: &CutPacket, n: u32, k: usize, pace: u32, group: &mut G)
    ensures made { CallsMake (turn pace n datagrams.now k) (G.up group.old) (G.up group.new)
        (λ events. GroupTells events (G.known group.old) (G.known group.new)) }
    ensures same_count { length (G.up group.new) ≡ length (G.up group.old) }
{
    rest_before(n, k, pace, group);
    datagrams.send(k, group);
}

// Rests before a frame that is sent behind n others over the k-th link, but not before the first one.
fn rest_before<G: Group>(n: u32, k: usize, pace: u32, group: &mut G)
    ensures made { CallsMake (pause pace n k) (G.up group.old) (G.up group.new)
        (λ events. GroupTells events (G.known group.old) (G.known group.new)) }
    ensures same { G.up group.new ≡ G.up group.old }
{
    if n == 0 || !group.is_up(k) {
        return;
    }
    group.rest(k, pace);
}
