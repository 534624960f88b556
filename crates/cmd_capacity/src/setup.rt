//! What a configuration asks of its channel.

ghost use Rattle.std.specs.Prelude.{◌≡◌, ◌≤◌, length, All, sum_by};
ghost use Rattle.drm_schedule.specs.Ranges.{StreamInLines};
ghost use Rattle.cmd_capacity.specs.Asked.{HasChannel, setup_of, used_by};

use drm_channel::{Constellation, PartSetup, Protection, SdcMode, Setup, Signal, Usage};
use drm_schedule::{Config, Stream};

// The bytes of part A in a frame.
fn part_a_len(streams: &[Stream]) -> u32
    requires each { All StreamInLines streams.now }
    requires within_limit { length streams.now ≤ 4 }
    ensures { result ≡ sum_by (λ s. s.a) streams.now }
{
    streams.iter().map(|s| u32::from(s.a)).sum()
}

// The bytes of part B in a frame.
fn part_b_len(streams: &[Stream]) -> u32
    requires each { All StreamInLines streams.now }
    requires within_limit { length streams.now ≤ 4 }
    ensures { result ≡ sum_by (λ s. s.b) streams.now }
{
    streams.iter().map(|s| u32::from(s.b)).sum()
}

fn setup(config: &Config) -> Setup
    requires { HasChannel config.now }
    ensures { result ≡ setup_of config.now }
{
    let streams = config.streams.as_slice();
    Setup {
        signal: Signal::of(config.mode, config.occupancy),
        constellation: Constellation::of(config.msc),
        part_a: PartSetup {
            protection: Protection::of(config.prot_a),
            bytes: part_a_len(streams) as u16,
        },
        part_b: PartSetup {
            protection: Protection::of(config.prot_b),
            bytes: part_b_len(streams) as u16,
        },
        sdc_mode: SdcMode::of(config.qam4),
        sdc: config.room,
    }
}

/// What a configuration uses of its channel.
pub(crate) fn used_by(config: &Config) -> Usage
    requires { HasChannel config.now }
    ensures { result ≡ used_by config.now }
{
    Usage::of(&setup(config))
}
