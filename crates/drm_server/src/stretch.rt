//! Which frames of a schedule are sent.

ghost use Rattle.std.specs.Prelude.{ℕ, ◌≡◌, ◌+◌, ◌<◌, ◌≤◌};
ghost use Rattle.drm_timeline.specs.Numbers as numbers;
ghost use Rattle.drm_server.specs.Stretch as stretch;
ghost use Rattle.drm_server.specs.Stretch.{first_in, frames_in};

use drm_schedule::Schedule;
use drm_timeline::frame_count;

/// Super frames of a schedule, one after another, with their frames.
#[derive(Clone, Copy, Debug, PartialEq, Eq)]
pub struct Stretch {
    /// The first super frame.
    pub from: u32,
    /// The one behind the last; where none is named, or it is behind the schedule's end, that is the last.
    pub until: Option<u32>,
}

impl Stretch {
    /// How many frames of the schedule it has.
    #[tactic(auto, unfolding(crate::specs::Stretch::frames_in))]
    pub fn frames(self, schedule: &Schedule) -> u32
        ensures frames { result ≡ frames_in self schedule.now }
        ensures within { (n : ℕ) → n < result → first_in self + n < numbers.frame_count schedule.now }
        ensures within_limit { (n : ℕ) → n < result → first_in self + n < 3000000 }
    {
        let end = end_before(self.until, frame_count(schedule));
        end.saturating_sub(self.from.saturating_mul(3))
    }

    /// The number, in the schedule, of its frame behind `n` others.
    pub fn frame(self, n: u32) -> u32
        requires { first_in self + n < 3000000 }
        ensures { result ≡ first_in self + n }
    {
        3 * self.from + n
    }
}

// Up to which of so many frames is sent.
fn end_before(until: Option<u32>, count: u32) -> u32
    requires { count ≤ 3000000 }
    ensures end { result ≡ stretch.end_before until count }
    ensures most { result ≤ count }
{
    match until {
        None => count,
        Some(until) => count.min(until.saturating_mul(3)),
    }
}
