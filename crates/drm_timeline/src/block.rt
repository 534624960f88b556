//! The block of each super frame.

ghost use Rattle.std.specs.Prelude.{ℕ, List, ◌≡◌, ◌+◌, ◌-◌, ◌*◌, ◌/◌, ◌≤◌, ◌<◌, ◌^◌, false, length, take, drop, replicate, option_map, slice_index, Option, Some};
ghost use Rattle.drm_bits.specs.Bits.{bits_of};
ghost use Rattle.drm_bits.specs.Crc.{zeros};
ghost use Rattle.drm_bits.specs.Sink.{unwritten};
ghost use Rattle.drm_sdc.specs.Block.{IsBlock};
ghost use Rattle.drm_sdc.specs.Field.{IsField};
ghost use Rattle.drm_sdc.specs.Writing.{total_size};
ghost use Rattle.drm_sdc.specs.declared.block.Block.{Block};
ghost use Rattle.drm_sdc.specs.declared.entity.Entity.{Entity};
ghost use Rattle.drm_schedule.specs.Ranges.{ConfigInLines};
ghost use Rattle.drm_schedule.specs.Sizes.{HasRoom, free_bytes, size_in_force, size_if, tells_clock};
ghost use Rattle.drm_timeline.specs.Standing.{config_of, announced_in};
ghost use Rattle.drm_timeline.specs.Blocks.{block_of, entities_of, own_entities, clock_in};
ghost use Rattle.drm_timeline.specs.Telling.{WroteEntities, BlockAnnounces};

use crate::announcing::write_announcement;
use crate::block_contents::{description, moment};
use crate::configuration::{announced, standing};
use drm_bits::BitSink;
use drm_schedule::{Body, Config, Schedule};
use drm_sdc::{frame_field, put_zeros, write_entities, write_entity};

/// Writes the block of a super frame, and gives its bits: 20, and eight for each byte of its data field. Zeros stand in
/// the four bits behind it; the bytes of `into` behind these keep what they were.
pub fn block_into(plan: &Schedule, sf: u32, into: &mut [u8; 1026]) -> u32
    requires { sf < plan.now.length }
    ensures bits { Some result ≡ option_map (λ c. 8 * c.room + 20) (config_of plan.now sf) }
    ensures block { (block : Block) × (block_of plan.now sf ≡ Some block) × IsBlock block (take result (bits_of into.new)) }
    ensures last { take 4 (drop result (bits_of into.new)) ≡ zeros 4 }
    ensures rest { drop ((result + 4) / 8) into.new ≡ drop ((result + 4) / 8) into.old }
    ensures octets { (i : ℕ) → slice_index into.new i < 2 ^ 8 }
{
    // For its clause alone: the schedule is valid.
    plan.always_valid();
    let config = standing(plan, sf);
    let mut field = [0; 1023];
    write_field(plan, sf, config, &mut field);
    frame_field(0, &field[..usize::from(config.room)], into)
}

// Writes the entities at the front of the data field, and zeros behind them.
fn write_field(plan: &Schedule, sf: u32, config: &Config, field: &mut [u8; 1023])
    requires config { config_of plan.now sf ≡ Some config.now }
    requires fits { ConfigInLines config.now }
    requires room { HasRoom config.now }
    requires started { (config.now.start ≤ sf) × (sf < 1000000) }
    ensures field { (entities : List Entity) × (entities_of config.now plan.now sf ≡ Some entities) × IsField entities (replicate (config.now.room - total_size entities) 0) (take config.now.room field.new) }
    ensures octets { (i : ℕ) → slice_index field.new i < 2 ^ 8 }
{
    let mut sink = BitSink::new(field);
    write_own_entities(&mut sink, config, sf);
    write_announced(&mut sink, plan, sf, config);
    let used = sink.len() / 8;
    put_zeros(&mut sink, usize::from(config.room) - used);
}

// Writes what a block tells of the configuration that is announced.
fn write_announced(sink: &mut BitSink<'_>, plan: &Schedule, sf: u32, config: &Config)
    requires config { config_of plan.now sf ≡ Some config.now }
    requires fits { ConfigInLines config.now }
    requires room { 8 * free_bytes config.now sf ≤ length (unwritten sink.old) }
    ensures announces { BlockAnnounces config.now sf (announced_in plan.now sf) sink.old sink.new }
{
    if let Some(next) = announced(plan, sf) {
        write_announcement(sink, config, next, sf);
    }
}

// Writes what a block tells of its own configuration.
fn write_own_entities(sink: &mut BitSink<'_>, config: &Config, sf: u32)
    requires fits { ConfigInLines config.now }
    requires started { (config.now.start ≤ sf) × (sf < 1000000) }
    requires room { 8 * (size_in_force config.now sf + size_if (tells_clock config.now sf)) ≤ length (unwritten sink.old) }
    ensures { WroteEntities (own_entities config.now sf) sink.old sink.new }
{
    let desc = description(config);
    write_entity(sink, false, &Body::Mux { desc });
    write_entities(sink, config.entities_in_force(sf));
    write_clock(sink, config, sf);
}

// Writes the moment of the super frame, where its block tells it.
fn write_clock(sink: &mut BitSink<'_>, config: &Config, sf: u32)
    requires fits { ConfigInLines config.now }
    requires started { (config.now.start ≤ sf) × (sf < 1000000) }
    requires room { 8 * size_if (tells_clock config.now sf) ≤ length (unwritten sink.old) }
    ensures { WroteEntities (clock_in config.now sf) sink.old sink.new }
{
    if let Some(clock) = config.clock {
        let later = sf - config.start;
        if later % 50 == 0 {
            write_entity(sink, false, &moment(clock, later / 50));
        }
    }
}
