//! The next frame, with its piece of input.

ghost use Rattle.std.specs.Prelude.{ℕ, Bool, true, false, ◌≡◌, ◌<◌, ◌≤◌, length, Ok, IfOk, IfErr, OnOk, OnErr, IsErr};
ghost use Rattle.drm_links.specs.Known.{HasCause};
ghost use Rattle.drm_timeline.specs.Numbers.{frame_count};
ghost use Rattle.drm_schedule.specs.Live.{is_any, is_live};
ghost use Rattle.drm_schedule.specs.declared.plan.Plan.{Plan};
ghost use Rattle.live_streams.specs.Live.{piece_at};
ghost use Rattle.live_server.specs.Loading.{LoadsNext, LoadBreaks};
ghost use Rattle.live_server.specs.Turns.{wanted, asks, with_turns};

use crate::feed::Pieces;
use cmd_faults::Fault;
use drm_bits::{NoMemory, zeros};
use drm_schedule::Live;
use drm_server::Server;
use live_streams::{MOST_PIECE, piece_len};
use std::alloc::Global;

/// Room for the piece of a frame.
pub fn piece_room(alloc: Global) -> Result<Vec<u8>, NoMemory>
    ensures { IfOk result (λ scratch. length scratch.items ≡ 32760) }
{
    zeros(alloc, MOST_PIECE)
}

// For its clause alone: where no stream is live no frame asks for bytes.
pub(crate) fn asks_for_nothing(live: &Live)
    ensures { is_any live.now ≡ false → (plan : Plan) (t : ℕ) → piece_at live.now plan t ≡ 0 }
{
    let _ = count(&live.streams);
}

/// For its clause alone: where not any stream is live none is.
pub(crate) fn none_is_live(live: &Live)
    ensures { is_any live.now ≡ false → (k : ℕ) → is_live live.now k ≡ false }
{
    let _ = count(&live.streams);
}

// How many streams there may be.
fn count(streams: &[bool; 4]) -> usize
    ensures same_length { result ≡ length streams.now }
    ensures known { result ≡ 4 }
{
    streams.len()
}

/// Reads the piece of frame `t` by way of this room, where the frame asks for one and input hasn't ended, and loads the frame with it;
/// where it doesn't come whole, input has ended, and the frame is loaded with its own content.
pub(crate) fn load<P: Pieces>(
    server: &mut Server<'_>,
    t: u32,
    live: &Live,
    feed: &mut P,
    scratch: &mut [u8],
    ended: &mut bool,
) -> Result<(), Fault>
    requires frame { t < frame_count server.old.base }
    requires room { 32760 ≤ length scratch.old }
    ensures loaded { OnOk result (LoadsNext live.now t ended.old ended.new server.old server.new
        (P.input feed.old) (P.input feed.new)) }
    ensures at { OnOk result (server.new.frame ≡ t) }
    ensures stays { ended.old ≡ true → ended.new ≡ true }
    ensures failed { OnErr result (LoadBreaks live.now t ended.old server.old (P.input feed.old) (P.input feed.new)) }
    ensures going { OnErr result ((ended.old ≡ false) × (piece_at live.now server.old.base t ≡ 0 → ⊥)) }
    ensures fault { IfErr result (λ fault. fault ≡ Fault.Read) }
    ensures cause { HasCause (P.input feed.old) (P.input feed.new) (IsErr result) }
    ensures still { wanted ended.old (piece_at live.now server.old.base t) ≡ 0
        → (feed.new ≡ feed.old) × (ended.new ≡ ended.old) × (result ≡ Ok tt) }
    ensures turns { P.turns feed.new
        ≡ with_turns (asks (wanted ended.old (piece_at live.now server.old.base t))) (P.turns feed.old) }
    ensures leaves { P.leaves feed.old feed.new }
    ensures base { server.new.base ≡ server.old.base }
    ensures room { length scratch.new ≡ length scratch.old }
{
    // For its clause alone: the schedule is valid.
    server.schedule().always_valid();
    let len = wanted_len(server, t, live, *ended);
    if len == 0 {
        server.load(t);
        return Ok(());
    }
    let piece = &mut scratch[..len];
    let len_read = feed.read_piece(piece)?;
    if len_read < len {
        *ended = true;
        server.load(t);
    } else {
        server.load_live(t, live, piece);
    }
    Ok(())
}

// For how many bytes input is asked now.
fn wanted_len(server: &Server<'_>, t: u32, live: &Live, ended: bool) -> usize
    requires { t < frame_count server.now.base }
    ensures len { result ≡ wanted ended (piece_at live.now server.now.base t) }
    ensures most { result ≤ 32760 }
{
    if ended {
        0
    } else {
        piece_len(server.schedule(), live, t)
    }
}
