//! What blocks tell of a configuration as such.

ghost use Rattle.std.specs.Prelude.{◌≡◌, ◌≤◌, ◌<◌, length, Some};
ghost use Rattle.std.specs.Option.{option_copied};
ghost use Rattle.drm_sdc.specs.Entity.{EntityFits};
ghost use Rattle.drm_schedule.specs.Ranges.{ConfigInLines, ClockInLines};
ghost use Rattle.drm_timeline.specs.Blocks.{current};
ghost use Rattle.drm_timeline.specs.Description.{description_of, parts_of, part_of, moment_of};

use drm_schedule::{Body, Clock, Config, MuxDesc, Part, Stream};

/// The multiplex description of a configuration.
pub fn description(config: &Config) -> MuxDesc
    requires { ConfigInLines config.now }
    ensures { result ≡ description_of config.now }
{
    MuxDesc {
        prot_a: config.prot_a,
        prot_b: config.prot_b,
        count: config.streams.len() as u8,
        parts: parts(config.streams.as_slice()),
    }
}

// The parts of the streams, and zeros up to four.
fn parts(streams: &[Stream]) -> [Part; 4]
    ensures { result ≡ parts_of streams.now }
{
    [
        part(streams.get(0)),
        part(streams.get(1)),
        part(streams.get(2)),
        part(streams.get(3)),
    ]
}

fn part(stream: Option<&Stream>) -> Part
    ensures { result ≡ part_of (option_copied stream.entry) }
{
    match stream {
        None => Part { a: 0, b: 0 },
        Some(stream) => Part {
            a: stream.a,
            b: stream.b,
        },
    }
}

/// The moment of a clock, so many minutes later.
pub fn moment(clock: Clock, later: u32) -> Body
    requires clock { ClockInLines clock }
    requires later { later < 20000 }
    ensures moment { result ≡ moment_of clock later }
    ensures fits { EntityFits (current result) }
{
    let minutes = 60 * u32::from(clock.hours) + u32::from(clock.minutes) + later;
    Body::Time {
        mjd: clock.mjd + minutes / (24 * 60),
        hours: (minutes / 60 % 24) as u8,
        minutes: (minutes % 60) as u8,
        extra: None,
    }
}
