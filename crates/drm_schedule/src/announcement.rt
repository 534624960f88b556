//! Whether a configuration can be announced.

ghost use Rattle.std.specs.Prelude.{◌≡◌, ◌+◌, ◌<◌, ◌≤◌, ◌^◌, [], ◌∷◌, length, take, map, All};
ghost use Rattle.std.specs.List.{range_with_len};
ghost use Rattle.drm_sdc.specs.Entity.{entity_size};
ghost use Rattle.drm_schedule.specs.Ranges.{EntityInLines, ConfigInLines};
ghost use Rattle.drm_schedule.specs.InForce.{first_entities};
ghost use Rattle.drm_schedule.specs.Sizes.{description_size, free_bytes};
ghost use Rattle.plan_packing.specs.Packing as packing;
ghost use Rattle.plan_packing.specs.Packing.{last_spot};
ghost use Rattle.drm_schedule.specs.Announcement as announcement;
ghost use Rattle.drm_schedule.specs.Announcement.{repeated_of, all_repeated, parameters_size};

use crate::sizes::{entity_len, free_len};
use crate::{Body, Config, Entity};
use plan_packing::Spot;

/// The entities of the lines that an announcement repeats.
#[derive(Clone, Copy)]
pub enum Repeated {
    Audio,
    App,
}

impl Repeated {
    ghost use Rattle.drm_schedule.specs.SameLines.{is_of};

    /// Whether an entity with this body is one of them.
    pub fn is_of(self, body: &Body) -> bool
        ensures { result ≡ is_of self body.now }
    {
        match self {
            Repeated::Audio => matches!(body, Body::Audio { .. }),
            Repeated::App => matches!(body, Body::App { .. }),
        }
    }
}

// Packs those of the entities that are repeated.
fn place_all(free: &[u16], from: Spot, repeated: Repeated, config: &Config) -> Option<Spot>
    requires { All EntityInLines (first_entities config.now) }
    ensures { result ≡ last_spot free.now from (map entity_size (repeated_of repeated config.now)) }
{
    let mut spot = from;
    let mut left = config.first_entities();
    while let [entity, more @ ..] = left {
        if repeated.is_of(&entity.body) {
            spot = spot.place(free, entity_len(entity))?;
        }
        left = more;
    }
    Some(spot)
}

// Packs the audio entities and then the app entities.
fn place_repeated(free: &[u16], from: Spot, config: &Config) -> Option<Spot>
    requires { All EntityInLines (first_entities config.now) }
    ensures { result ≡ last_spot free.now from (map entity_size (all_repeated config.now)) }
{
    let spot = place_all(free, from, Repeated::Audio, config)?;
    place_all(free, spot, Repeated::App, config)
}

// Packs the description of the streams and the channel parameters.
fn place_head(free: &[u16], config: &Config) -> Option<Spot>
    requires { length config.now.streams ≤ 4 }
    ensures { result ≡ last_spot free.now packing.front (description_size (length config.now.streams) ∷ parameters_size ∷ []) }
{
    let described = 2 + 3 * config.streams.len() as u16;
    Spot::front().place(free, described)?.place(free, 4)
}

// The bytes that so many super frames have free, from one on.
fn free_lens(before: &Config, first: u32, count: usize) -> [u16; 7]
    requires before { ConfigInLines before.now }
    requires first { first + count < 2 ^ 32 }
    requires count { count ≤ 7 }
    ensures { take count result ≡ map (free_bytes before.now) (range_with_len first count) }
{
    let mut free = [0; 7];
    for i in 0..count {
        free[i] = free_len(before, first + i as u32);
    }
    free
}

/// The bytes that each super frame of the countdown to a configuration has free, in the blocks of the one before it; and
/// behind these zeros.
pub fn free_in_countdown(before: &Config, config: &Config) -> [u16; 7]
    requires before { ConfigInLines before.now }
    requires config { ConfigInLines config.now }
    ensures { take config.now.countdown result ≡ announcement.free_in_countdown before.now config.now }
{
    let countdown = u32::from(config.countdown);
    let first = config.start.saturating_sub(countdown);
    free_lens(before, first, countdown as usize)
}

/// Whether the announcement of a configuration can be packed whole into the blocks of the one before it.
pub fn can_be_announced(before: &Config, config: &Config) -> bool
    requires before { ConfigInLines before.now }
    requires config { ConfigInLines config.now }
    ensures { result ≡ announcement.can_be_announced before.now config.now }
{
    let count = usize::from(config.countdown);
    let free = free_in_countdown(before, config);
    pack(&free[..count], config).is_some()
}

// Packs the whole announcement.
fn pack(free: &[u16], config: &Config) -> Option<Spot>
    requires { ConfigInLines config.now }
    ensures { result ≡ last_spot free.now packing.front (announcement.announced config.now) }
{
    let spot = place_head(free, config)?;
    place_repeated(free, spot, config)
}
