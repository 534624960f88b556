//! The data field of a block, written.

ghost use Rattle.std.specs.Prelude.{◌≡◌, ◌+◌, ◌-◌, ◌*◌, ◌≤◌, ◌<◌, ◌^◌, ℕ, length, take, replicate, slice_index, All};
ghost use Rattle.drm_bits.specs.Fields.{spelled};
ghost use Rattle.drm_bits.specs.Sink.{unwritten};
ghost use Rattle.drm_sdc.specs.Bodies.{kind_of};
ghost use Rattle.drm_sdc.specs.Entity.{EntityFits, entity_fields, entity_size};
ghost use Rattle.drm_sdc.specs.Field.{IsField};
ghost use Rattle.drm_bits.specs.Sink.{WroteBits};
ghost use Rattle.drm_sdc.specs.Writing.{entity_bits, total_size};

use crate::put::put_zeros;
use crate::size::body_size;
use crate::write_body::write_body;
use crate::{Body, Entity};
use drm_bits::BitSink;

/// How many bytes the entities have.
pub fn total_size(entities: &[Entity]) -> usize
    requires fit { All EntityFits entities.now }
    requires in_range { total_size entities.now ≤ usize.MAX }
    ensures { result ≡ total_size entities.now }
{
    let mut total = 0;
    for entity in entities {
        total += entity.size();
    }
    total
}

/// Writes the entities at the front of the field, and zeros behind them.
pub fn write_field(entities: &[Entity], needed: usize, room: usize, field: &mut [u8; 1023])
    requires fit { All EntityFits entities.now }
    requires needed { needed ≡ total_size entities.now }
    requires room { (needed ≤ room) × (room ≤ 1023) }
    ensures field { IsField entities.now (replicate (room - needed) 0) (take room field.new) }
    ensures octets { (i : ℕ) → slice_index field.new i < 2 ^ 8 }
{
    let mut sink = BitSink::new(field);
    write_entities(&mut sink, entities);
    put_zeros(&mut sink, room - needed);
}

/// Writes the entities, one behind another.
pub fn write_entities(sink: &mut BitSink<'_>, entities: &[Entity])
    requires fit { All EntityFits entities.now }
    requires room { 8 * total_size entities.now ≤ length (unwritten sink.old) }
    ensures wrote { WroteBits (entity_bits entities.now) sink.old sink.new }
    ensures remaining { length (unwritten sink.new) + 8 * total_size entities.now ≡ length (unwritten sink.old) }
{
    for entity in entities {
        write_entity(sink, entity.version, &entity.body);
    }
}

/// Writes the entity of this version and body.
pub fn write_entity(sink: &mut BitSink<'_>, version: bool, body: &Body)
    requires fits { EntityFits (record { version = version; body = body.now }) }
    requires room { 8 * entity_size (record { version = version; body = body.now }) ≤ length (unwritten sink.old) }
    ensures wrote { WroteBits (spelled (entity_fields (record { version = version; body = body.now }))) sink.old sink.new }
    ensures remaining { length (unwritten sink.new) + 8 * entity_size (record { version = version; body = body.now }) ≡ length (unwritten sink.old) }
{
    let len = body_size(body) as u8;
    sink.put_u8(len, 7);
    sink.put_flag(version);
    sink.put_u8(type_of(body), 4);
    write_body(sink, body);
}

fn type_of(body: &Body) -> u8
    ensures { result ≡ kind_of body.now }
{
    match body {
        Body::Mux { .. } => 0,
        Body::Label { .. } => 1,
        Body::Freq { .. } => 3,
        Body::When { .. } => 4,
        Body::App { .. } => 5,
        Body::Time { .. } => 8,
        Body::Audio { .. } => 9,
        Body::Next { .. } => 10,
        Body::Language { .. } => 12,
        Body::Raw { kind, .. } => *kind,
    }
}
