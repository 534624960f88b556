//! How many bytes blocks and packets take.

ghost use Rattle.std.specs.Prelude.{◌≡◌, ◌≤◌, ◌<◌, ◌^◌, ◌+◌, length, All, sum_by};
ghost use Rattle.drm_sdc.specs.Entity.{entity_size};
ghost use Rattle.drm_schedule.specs.Ranges.{EntityInLines, TimedInLines, StreamInLines, ConfigInLines};
ghost use Rattle.drm_schedule.specs.Sizes as sizes;
ghost use Rattle.drm_schedule.specs.Sizes.{size_with, size_if, free_bytes, has_no_room, stream_size};

use crate::{Config, Stream, Timed};
use drm_sdc::{Entity, total_size};

/// The bytes of an entity.
pub fn entity_len(entity: &Entity) -> u16
    requires { EntityInLines entity.now }
    ensures { result ≡ entity_size entity.now }
{
    entity.size() as u16
}

// The bytes of what is told of the streams and with these entities.
fn len_with(config: &Config, entities: &[Entity]) -> usize
    requires config { ConfigInLines config.now }
    requires within_limit { length entities.now ≤ 64 }
    requires each { All EntityInLines entities.now }
    ensures size { result ≡ size_with config.now entities.now }
    ensures in_range { result < 2 ^ 14 }
{
    2 + 3 * config.streams.len() + total_size(entities)
}

// The bytes of a clock, where it is told.
fn clock_len(has_clock: bool) -> usize
    ensures size { result ≡ size_if has_clock }
    ensures in_range { result ≤ 5 }
{
    if has_clock { 5 } else { 0 }
}

/// Whether there is no room for what is told with the entities of a block.
pub fn is_too_small(config: &Config, block: &Timed) -> bool
    requires config { ConfigInLines config.now }
    requires block { TimedInLines block.now }
    ensures { result ≡ has_no_room config.now block.now }
{
    let len = len_with(config, block.entities.as_slice());
    usize::from(config.room) < len + clock_len(config.clock.is_some())
}

/// The bytes that the block of a super frame has left for an announcement.
pub fn free_len(config: &Config, frame: u32) -> u16
    requires { ConfigInLines config.now }
    ensures { result ≡ free_bytes config.now frame }
{
    let has_clock = config.clock.is_some() && frame.saturating_sub(config.start) % 50 == 0;
    let len = len_with(config, config.entities_in_force(frame)) + clock_len(has_clock);
    usize::from(config.room).saturating_sub(len) as u16
}

/// The bytes of a stream in each frame.
pub fn stream_len(stream: &Stream) -> u32
    ensures size { result ≡ stream_size stream.now }
    ensures in_range { result < 2 ^ 17 }
{
    u32::from(stream.a) + u32::from(stream.b)
}

// The bytes of the items of the streams, each with its head.
fn items_len(streams: &[Stream]) -> u32
    requires each { All StreamInLines streams.now }
    requires within_limit { length streams.now ≤ 4 }
    ensures { result ≡ sum_by (λ s. 8 + stream_size s) streams.now }
{
    streams.iter().map(|s| 8 + stream_len(s)).sum()
}

/// The bytes of the AF packet of a frame, of the first one of a super frame or of another.
pub fn packet_len(config: &Config, is_first: bool) -> u32
    requires { ConfigInLines config.now }
    ensures { result ≡ sizes.packet_len config.now is_first }
{
    let block = if is_first {
        u32::from(config.room) + 11
    } else {
        0
    };
    let streams = config.streams.as_slice();
    12 + 62 + 1 + 3 * streams.len() as u32 + block + items_len(streams)
}
