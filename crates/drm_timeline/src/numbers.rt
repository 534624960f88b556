//! The numbers of a schedule's frames.

ghost use Rattle.std.specs.Prelude.{◌≡◌, ◌+◌, ◌-◌, ◌*◌, ◌/◌, ◌<◌, ◌≤◌, All, false, Some};
ghost use Rattle.dcp_pft.specs.Limits.{most_packet, longest_packet};
ghost use Rattle.drm_schedule.specs.Ranges.{ConfigInLines};
ghost use Rattle.drm_schedule.specs.Valid.{is_short};
ghost use Rattle.drm_schedule.specs.declared.stream.Stream.{Stream};
ghost use Rattle.drm_timeline.specs.Standing.{config_of};
ghost use Rattle.drm_timeline.specs.Numbers as numbers;
ghost use Rattle.drm_timeline.specs.Numbers.{packet_size};

use crate::configuration::standing;
use drm_schedule::{Config, Schedule};

/// How many frames a schedule has.
pub fn frame_count(plan: &Schedule) -> u32
    ensures count { result ≡ numbers.frame_count plan.now }
    ensures at_least_one { 1 ≤ result }
    ensures within_limit { result ≤ 3000000 }
{
    // For its clause alone: the schedule is valid.
    plan.always_valid();
    3 * plan.length()
}

/// The configuration of frame `t`, whose files reach as far as this frame.
pub fn config_of_frame(plan: &Schedule, t: u32) -> &Config
    requires { t < numbers.frame_count plan.now }
    ensures config { config_of plan.now (t / 3) ≡ Some result.now }
    ensures fits { ConfigInLines result.now }
    ensures started { 3 * result.now.start ≤ t }
    ensures files { All (λ (s : Stream). is_short (t - 3 * result.now.start + 1) s ≡ false) result.now.streams }
{
    // For its clause alone: the schedule is valid.
    plan.always_valid();
    standing(plan, t / 3)
}

/// How many bytes the AF packet of a frame has.
#[tactic(auto, unfolding(crate::specs::Numbers::packet_size))]
pub fn packet_len(plan: &Schedule, t: u32) -> usize
    ensures len { result ≡ packet_size plan.now t }
    ensures at_least_one { 1 ≤ result }
    // The limit that a valid schedule keeps.
    ensures in_range { result ≤ most_packet plan.now.carry }
    ensures within { result ≤ longest_packet }
{
    drm_schedule::packet_len(standing(plan, t / 3), t % 3 == 0) as usize
}

/// The sequence number of the packet of frame `t`, and of its fragments.
pub fn sequence_number(plan: &Schedule, t: u32) -> u16
    ensures { result ≡ numbers.sequence_number plan.now t }
{
    plan.seq().wrapping_add((t % (1 << 16)) as u16)
}
