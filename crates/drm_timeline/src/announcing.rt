//! What the block of a super frame tells of the configuration that is announced in it.

ghost use Rattle.std.specs.Prelude.{◌≡◌, ◌+◌, ◌-◌, ◌*◌, ◌≤◌, ◌<◌, ◌==◌, true, [], ◌∷◌, if◌then◌else◌, length, map, filter, List, Some, IsSome, All};
ghost use Rattle.drm_bits.specs.Sink.{unwritten};
ghost use Rattle.drm_sdc.specs.declared.body.Body.{Body};
ghost use Rattle.drm_sdc.specs.declared.body.Body.TheVariants.{Mux};
ghost use Rattle.drm_sdc.specs.declared.entity.Entity.{Entity};
ghost use Rattle.drm_sdc.specs.Writing.{total_size};
ghost use Rattle.drm_sdc.specs.Entity.{EntityFits, entity_size};
ghost use Rattle.drm_schedule.specs.Ranges.{ConfigInLines, EntityInLines};
ghost use Rattle.drm_schedule.specs.InForce.{first_entities};
ghost use Rattle.drm_schedule.specs.Sizes.{description_size, free_bytes};
ghost use Rattle.plan_packing.specs.Packing.{placed, last_spot};
ghost use Rattle.plan_packing.specs.Packing as packing;
ghost use Rattle.drm_schedule.specs.Announcement as announcement;
ghost use Rattle.drm_schedule.specs.SameLines.{is_of};
ghost use Rattle.drm_schedule.specs.Announcement.{repeated_of, announced, parameters_size};
ghost use Rattle.drm_timeline.specs.Standing as standing;
ghost use Rattle.drm_timeline.specs.FastAccess.{services_of};
ghost use Rattle.drm_timeline.specs.Description.{description_of, parameters_of};
ghost use Rattle.drm_timeline.specs.Announcing.{next, as_next, announcement_of, packed_in, left_in};
ghost use Rattle.drm_timeline.specs.Telling.{WroteEntities, BlockAnnounces};

use crate::block_contents::description;
use crate::fast_access::code;
use drm_bits::BitSink;
use drm_schedule::{Body, Config, Entity, Repeated, Spot, entity_len, free_in_countdown};
use drm_sdc::write_entity;

/// Writes the entities of the announcement that are packed into this super frame.
pub fn write_announcement(sink: &mut BitSink<'_>, before: &Config, config: &Config, sf: u32)
    requires before { ConfigInLines before.now }
    requires fits { ConfigInLines config.now }
    requires services { IsSome (services_of config.now) }
    requires counting { standing.is_counting sf config.now ≡ true }
    requires can { announcement.can_be_announced before.now config.now ≡ true }
    requires room { 8 * free_bytes before.now sf ≤ length (unwritten sink.old) }
    ensures announces { BlockAnnounces before.now sf (Some config.now) sink.old sink.new }
{
    let countdown = u32::from(config.countdown);
    let frame = (sf - config.start.saturating_sub(countdown)) as usize;
    let free = free_in_countdown(before, config);
    write_packed(sink, &free[..countdown as usize], frame, config);
}

// Writes the entities of the announcement that are packed into this super frame of the countdown.
fn write_packed(sink: &mut BitSink<'_>, free: &[u16], frame: usize, config: &Config)
    requires fits { ConfigInLines config.now }
    requires services { IsSome (services_of config.now) }
    requires packs { IsSome (last_spot free.now packing.front (announced config.now)) }
    requires room { 8 * left_in frame free.now packing.front ≤ length (unwritten sink.old) }
    ensures wrote { (entities : List Entity) × (announcement_of config.now ≡ Some entities)
        × WroteEntities (packed_in frame free.now packing.front entities) sink.old sink.new
        × (total_size (packed_in frame free.now packing.front entities) ≤ left_in frame free.now packing.front) }
{
    let spot = write_head(sink, free, frame, config);
    let spot = write_all(sink, free, spot, frame, Repeated::Audio, config);
    write_all(sink, free, spot, frame, Repeated::App, config);
}

// Writes the description of the streams and the channel parameters, where they are packed into this super frame.
fn write_head(sink: &mut BitSink<'_>, free: &[u16], frame: usize, config: &Config) -> Spot
    requires fits { ConfigInLines config.now }
    requires services { IsSome (services_of config.now) }
    requires packs { IsSome (last_spot free.now packing.front (description_size (length config.now.streams) ∷ parameters_size ∷ [])) }
    requires room { 8 * left_in frame free.now packing.front ≤ length (unwritten sink.old) }
    ensures spot { last_spot free.now packing.front (description_size (length config.now.streams) ∷ parameters_size ∷ []) ≡ Some result }
    ensures wrote { (parameters : Body) × (parameters_of config.now ≡ Some parameters)
        × WroteEntities (packed_in frame free.now packing.front (next (Mux (description_of config.now)) ∷ next parameters ∷ [])) sink.old sink.new }
{
    let desc = description(config);
    let size = 2 + 3 * config.streams.len() as u16;
    let spot = write_next(sink, free, Spot::front(), frame, size, &Body::Mux { desc });
    write_next(sink, free, spot, frame, 4, &parameters(config))
}

// The channel parameters of a configuration.
fn parameters(config: &Config) -> Body
    requires fits { ConfigInLines config.now }
    requires services { IsSome (services_of config.now) }
    ensures parameters { parameters_of config.now ≡ Some result }
    ensures fits { EntityFits (next result) }
    ensures size { entity_size (next result) ≡ 4 }
{
    Body::Next {
        enhancement: false,
        mode: config.mode.code(),
        occupancy: config.occupancy,
        short_depth: config.short_depth,
        msc: config.msc,
        qam4: config.qam4,
        services: code(config),
        last: 0,
    }
}

// Writes those of the entities that are repeated and are packed into this super frame.
fn write_all(
    sink: &mut BitSink<'_>,
    free: &[u16],
    from: Spot,
    frame: usize,
    repeated: Repeated,
    config: &Config,
) -> Spot
    requires each { All EntityInLines (first_entities config.now) }
    requires packs { IsSome (last_spot free.now from (map entity_size (repeated_of repeated config.now))) }
    requires room { 8 * left_in frame free.now from ≤ length (unwritten sink.old) }
    ensures spot { last_spot free.now from (map entity_size (repeated_of repeated config.now)) ≡ Some result }
    ensures wrote { WroteEntities (packed_in frame free.now from (map as_next (repeated_of repeated config.now))) sink.old sink.new }
{
    let mut spot = from;
    let mut left = config.first_entities();
    while let [entity, more @ ..] = left {
        spot = write_repeated(sink, free, spot, frame, repeated, entity);
        left = more;
    }
    spot
}

// Writes an entity, where it is repeated and is packed into this super frame.
fn write_repeated(
    sink: &mut BitSink<'_>,
    free: &[u16],
    spot: Spot,
    frame: usize,
    repeated: Repeated,
    entity: &Entity,
) -> Spot
    requires fits { EntityInLines entity.now }
    requires packs { IsSome (last_spot free.now spot (map entity_size (filter (λ e. is_of repeated e.body) (entity.now ∷ [])))) }
    requires room { 8 * left_in frame free.now spot ≤ length (unwritten sink.old) }
    ensures spot { last_spot free.now spot (map entity_size (filter (λ e. is_of repeated e.body) (entity.now ∷ []))) ≡ Some result }
    ensures wrote { WroteEntities (packed_in frame free.now spot (map as_next (filter (λ e. is_of repeated e.body) (entity.now ∷ [])))) sink.old sink.new }
{
    if repeated.is_of(&entity.body) {
        write_next(sink, free, spot, frame, entity_len(entity), &entity.body)
    } else {
        spot
    }
}

// Writes an entity of the next configuration, of so many bytes, where it is packed into this super frame.
fn write_next(
    sink: &mut BitSink<'_>,
    free: &[u16],
    spot: Spot,
    frame: usize,
    size: u16,
    body: &Body,
) -> Spot
    requires fits { EntityFits (next body.now) }
    requires size { size ≡ entity_size (next body.now) }
    requires packs { IsSome (placed free.now spot size) }
    requires room { 8 * left_in frame free.now spot ≤ length (unwritten sink.old) }
    ensures spot { placed free.now spot size ≡ Some result }
    ensures wrote { WroteEntities (packed_in frame free.now spot (next body.now ∷ [])) sink.old sink.new }
{
    match spot.place(free, size) {
        Some(placed) => {
            write_where(sink, placed.frame == frame, body);
            placed
        }
        None => unreachable!(),
    }
}

// Writes an entity of the next configuration, where it stands here.
fn write_where(sink: &mut BitSink<'_>, is_here: bool, body: &Body)
    requires fits { EntityFits (next body.now) }
    requires room { 8 * (if is_here then entity_size (next body.now) else 0) ≤ length (unwritten sink.old) }
    ensures wrote { WroteEntities (if is_here then next body.now ∷ [] else []) sink.old sink.new }
{
    if is_here {
        write_entity(sink, true, body);
    }
}
