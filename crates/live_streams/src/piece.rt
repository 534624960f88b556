//! How much of input a frame asks for.

ghost use Rattle.std.specs.Prelude.{◌≡◌, ◌≤◌, ◌<◌, All, length};
ghost use Rattle.drm_timeline.specs.Numbers.{frame_count};
ghost use Rattle.drm_schedule.specs.Ranges.{StreamInLines};
ghost use Rattle.live_streams.specs.Live.{piece_at, size_from};

use drm_schedule::{Live, Schedule, Stream};
use drm_timeline::config_of_frame;

/// The most bytes of a piece: those of four streams, the parts of each of which have at most 4,095 bytes.
pub const MOST_PIECE: usize = 4 * 2 * 4095;

/// In bytes, how much frame `t` asks of input: what its live streams have together.
pub fn piece_len(plan: &Schedule, live: &Live, t: u32) -> usize
    requires { t < frame_count plan.now }
    ensures len { result ≡ piece_at live.now plan.now t }
    ensures most { result ≤ 32760 }
{
    let config = config_of_frame(plan, t);
    live_len(live, config.streams.as_slice())
}

// What the live ones of these streams have together in each frame.
fn live_len(live: &Live, streams: &[Stream]) -> usize
    requires each { All StreamInLines streams.now }
    requires within_limit { length streams.now ≤ 4 }
    ensures len { result ≡ size_from live.now 0 streams.now }
    ensures most { result ≤ 32760 }
{
    let mut len = 0;
    for (k, stream) in streams.iter().enumerate() {
        if live.has(k) {
            len += usize::from(stream.a) + usize::from(stream.b);
        }
    }
    len
}
