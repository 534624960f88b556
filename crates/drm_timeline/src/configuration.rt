//! Which configuration holds in a super frame, and which one is announced in it.

ghost use Rattle.std.specs.Prelude.{◌≡◌, ◌<◌, ◌≤◌, length, All, IfSome, slice_get, filter, true, false, IsSome, Option, None, Some};
ghost use Rattle.std.specs.List.{find, last_or};
ghost use Rattle.std.specs.Option.{option_copied};
ghost use Rattle.dcp_pft.specs.Limits.{most_packet};
ghost use Rattle.drm_schedule.specs.Ranges.{ConfigInLines};
ghost use Rattle.plan_packing.specs.Packing.{chain};
ghost use Rattle.drm_schedule.specs.declared.config.Config.{Config};
ghost use Rattle.drm_schedule.specs.Announcement.{can_be_announced};
ghost use Rattle.drm_schedule.specs.Sizes.{HasRoom, packet_len};
ghost use Rattle.drm_timeline.specs.FastAccess.{services_of};
ghost use Rattle.drm_timeline.specs.Standing as standing;
ghost use Rattle.drm_timeline.specs.Standing.{has_started, config_of, announced_in, index_of};

use drm_schedule::{Config, Schedule};

/// The number, from 0, of the configuration that holds in a super frame: of the last one whose start is at most this.
pub fn config_at(plan: &Schedule, sf: u32) -> usize
    ensures config { slice_get plan.now.configs result ≡ config_of plan.now sf }
    ensures within { result < length plan.now.configs }
{
    // For its clause alone: the schedule is valid.
    plan.always_valid();
    match last_started(plan.configs().as_slice(), sf) {
        Some(k) => k,
        None => unreachable!(),
    }
}

/// The configuration that holds in a super frame, and what the layers of this crate need of it.
pub fn standing(plan: &Schedule, sf: u32) -> &Config
    ensures config { config_of plan.now sf ≡ Some result.now }
    ensures fits { ConfigInLines result.now }
    ensures started { result.now.start ≤ sf }
    ensures services { IsSome (services_of result.now) }
    ensures room { HasRoom result.now }
    ensures packet { packet_len result.now true ≤ most_packet plan.now.carry }
{
    // For its clause alone: the schedule is valid.
    plan.always_valid();
    plan.configs().get(config_at(plan, sf))
}

// The number of the last configuration whose start is at most this super frame.
fn last_started(configs: &[Config], sf: u32) -> Option<usize>
    ensures config { chain result (slice_get configs.now) ≡ last_or None (filter (has_started sf) configs.now) }
    ensures within { IfSome result (λ k. k < length configs.now) }
{
    let mut left = configs;
    while let [more @ .., config] = left {
        if config.start <= sf {
            return Some(more.len());
        }
        left = more;
    }
    None
}

/// The reconfiguration index in a super frame: how many super frames, this one counted, come before the start that is
/// announced; 0 where none is.
pub fn index_at(plan: &Schedule, sf: u32) -> u8
    ensures index { result ≡ index_of plan.now sf }
    ensures in_range { result < 8 }
{
    match announced(plan, sf) {
        None => 0,
        Some(config) => (config.start - sf) as u8,
    }
}

/// The configuration that is announced in a super frame.
pub fn announced<'a>(plan: &'a Schedule, sf: u32) -> Option<&'a Config>
    ensures config { option_copied result ≡ announced_in plan.now sf }
    ensures fits { IfSome (option_copied result) ConfigInLines }
    ensures counting { IfSome (option_copied result) (λ c. standing.is_counting sf c ≡ true) }
    ensures services { IfSome (option_copied result) (λ c. IsSome (services_of c)) }
    ensures can { (before : Config) → config_of plan.now sf ≡ Some before
        → IfSome (option_copied result) (λ c. can_be_announced before c ≡ true) }
{
    // For its clause alone: the schedule is valid.
    plan.always_valid();
    let mut left = plan.configs().as_slice();
    while let [config, more @ ..] = left {
        if is_counting(config, sf) {
            return Some(config);
        }
        left = more;
    }
    None
}

// Whether a super frame is one of the countdown to this configuration.
fn is_counting(config: &Config, sf: u32) -> bool
    ensures { result ≡ standing.is_counting sf config.now }
{
    config.start.saturating_sub(u32::from(config.countdown)) <= sf && sf < config.start
}
