//! The schedule of an exercise.

ghost use Rattle.std.specs.Prelude.{◌≡◌, ◌≤◌, ◌<◌, ◌^◌, IfOk};
ghost use Rattle.cmd_exercise.specs.Exercise as exercise;

use drm_bits::{NoMemory, Octets};
use drm_schedule::{
    Blocks, Body, Carry, Config, Configs, Content, Entities, Entity, Mode, OwnedList, Plan,
    Schedule, Service, Services, Stream, Streams, Timed,
};
use std::alloc::Global;

/// The schedule of the exercise of this size.
pub(crate) fn schedule_of(alloc: Global, n: u32) -> Result<Schedule, NoMemory>
    requires at_least_one { 1 ≤ n }
    requires within_limit { n ≤ 1000 }
    ensures { IfOk result (λ plan. plan ≡ exercise.plan n) }
{
    let configs = configs(alloc, n)?;
    let plan = Plan {
        carry: Carry::Pft { m: 2, mtu: 1400 },
        seq: 65_000,
        dlfc: 4_294_967_000,
        length: n,
        configs,
    };
    match Schedule::checked(plan) {
        Ok(schedule) => Ok(schedule),
        Err(_) => unreachable!(),
    }
}

// One configuration, and from four super frames on a second one.
fn configs(alloc: Global, n: u32) -> Result<Configs, NoMemory>
    ensures { IfOk result (λ configs. configs ≡ exercise.configs n) }
{
    let mut configs = OwnedList::new(alloc);
    configs.push(config(alloc, 0, 0, Mode::B, false, 0x11)?)?;
    if n < 4 {
        return Ok(configs);
    }
    configs.push(config(alloc, n / 2, 2, Mode::C, true, 0x12)?)?;
    Ok(configs)
}

// A configuration with one audio service in one stream, each of whose bytes is this one.
fn config(
    alloc: Global,
    start: u32,
    countdown: u8,
    mode: Mode,
    short_depth: bool,
    byte: u8,
) -> Result<Config, NoMemory>
    ensures { IfOk result (λ config. config ≡ exercise.config start countdown mode short_depth byte) }
{
    Ok(Config {
        start,
        countdown,
        mode,
        occupancy: 3,
        short_depth,
        msc: 0,
        qam4: false,
        prot_a: 0,
        prot_b: 1,
        room: 24,
        services: services(alloc)?,
        streams: streams(alloc, byte)?,
        clock: None,
        blocks: blocks(alloc)?,
    })
}

fn services(alloc: Global) -> Result<Services, NoMemory>
    ensures { IfOk result (λ services. services ≡ exercise.services) }
{
    let mut services = OwnedList::new(alloc);
    services.push(Service {
        id: 0x123456,
        short: 0,
        ca: false,
        language: 5,
        is_data: false,
        descriptor: 3,
        data_ca: false,
        last: 0,
    })?;
    Ok(services)
}

fn streams(alloc: Global, byte: u8) -> Result<Streams, NoMemory>
    ensures { IfOk result (λ streams. streams ≡ exercise.streams byte) }
{
    let mut streams = OwnedList::new(alloc);
    streams.push(Stream {
        a: 0,
        b: 300,
        content: Content::Fill(byte),
    })?;
    Ok(streams)
}

// One block, which begins with the configuration.
fn blocks(alloc: Global) -> Result<Blocks, NoMemory>
    ensures { IfOk result (λ blocks. blocks ≡ exercise.blocks) }
{
    let mut blocks = OwnedList::new(alloc);
    let entities = entities(alloc)?;
    blocks.push(Timed { from: 0, entities })?;
    Ok(blocks)
}

fn entities(alloc: Global) -> Result<Entities, NoMemory>
    ensures { IfOk result (λ entities. entities ≡ exercise.entities) }
{
    let mut entities = Entities::new(alloc);
    entities.push(Entity {
        version: false,
        body: Body::Audio {
            short: 0,
            stream: 0,
            coding: 0,
            sbr: true,
            mode: 0,
            rate: 3,
            text: false,
            enhancement: false,
            coder: 0,
            spare: false,
            config: Octets::from_slice(alloc, &[])?,
        },
    })?;
    Ok(entities)
}
