//! The configuration that its lines give.

ghost use Rattle.std.specs.Prelude.{◌≡◌, ◌++◌, IfOk, OnOk};
ghost use Rattle.drm_plan.specs.Projection.{or_one, or_line, config_of, places_of};
ghost use Rattle.drm_plan.specs.ConfigParts.{parts_of, more, more_by, no_parts, ConfigMadeOf};

use crate::places::LineNumbers;
use crate::settings;
use drm_bits::NoMemory;
use drm_schedule::{Blocks, Config, Entities, Entity, OwnedList, Services, Streams, Timed};
use plan_lines::{Keyword, Line};
use plan_rules::{ConfigLines, ParsedLine};
use std::alloc::Global;

/// What the lines of a configuration list: its services, streams and blocks.
#[derive(Drop)]
pub struct ConfigParts {
    pub services: Services,
    pub streams: Streams,
    pub stream_lines: OwnedList<u32>,
    /// Those before the first block line: all, where there is no block line.
    pub entities: Entities,
    pub blocks: Blocks,
    pub block_lines: OwnedList<u32>,
}

impl ConfigParts {
    fn new(alloc: Global) -> ConfigParts
        ensures { result ≡ no_parts }
    {
        ConfigParts {
            services: OwnedList::new(alloc),
            streams: OwnedList::new(alloc),
            stream_lines: OwnedList::new(alloc),
            entities: Entities::new(alloc),
            blocks: OwnedList::new(alloc),
            block_lines: OwnedList::new(alloc),
        }
    }

    // An entity of the last block, or before the first one.
    fn put_entity(&mut self, entity: Entity) -> Result<(), NoMemory>
        ensures { OnOk result (self.new ≡ more_by self.old 0 (Line.Entity entity)) }
    {
        match self.blocks.len() {
            0 => self.entities.push(entity),
            count => self.blocks.get_mut(count - 1).entities.push(entity),
        }
    }

    fn put(&mut self, alloc: Global, said: ParsedLine) -> Result<(), NoMemory>
        ensures { OnOk result (self.new ≡ more self.old said) }
    {
        let ParsedLine { line, says } = said;
        match says {
            Line::Service(service) => self.services.push(service)?,
            Line::Stream(stream) => {
                self.streams.push(stream)?;
                self.stream_lines.push(line)?;
            }
            Line::Block { from } => {
                let entities = Entities::new(alloc);
                self.blocks.push(Timed { from, entities })?;
                self.block_lines.push(line)?;
            }
            Line::Entity(entity) => self.put_entity(entity)?,
            _says => {}
        }
        Ok(())
    }
}

fn gathered(alloc: Global, lines: OwnedList<ParsedLine>) -> Result<ConfigParts, NoMemory>
    ensures { IfOk result (λ parts. parts ≡ parts_of lines) }
{
    let mut parts = ConfigParts::new(alloc);
    for said in lines.into_vec() {
        parts.put(alloc, said)?;
    }
    Ok(parts)
}

// The blocks: where no line begins one, a single one that begins with the configuration.
fn or_one(entities: Entities, blocks: Blocks) -> Result<Blocks, NoMemory>
    ensures { IfOk result (λ all. all ≡ or_one entities blocks) }
{
    let mut all = blocks;
    if all.len() == 0 {
        all.push(Timed { from: 0, entities })?;
    }
    Ok(all)
}

// The lines of the blocks: where no line begins one, the config line.
fn or_line(config_line: u32, block_lines: OwnedList<u32>) -> Result<OwnedList<u32>, NoMemory>
    ensures { IfOk result (λ all. all ≡ or_line config_line block_lines) }
{
    let mut all = block_lines;
    if all.len() == 0 {
        all.push(config_line)?;
    }
    Ok(all)
}

/// A configuration, and the lines that a fault of it can name.
pub fn make_config(alloc: Global, block: ConfigLines) -> Result<(Config, LineNumbers), NoMemory>
    ensures { IfOk result (λ made. ConfigMadeOf made.0 made.1 block) }
{
    let lines = block.lines.as_slice();
    let config_line = block.line;
    let occupancy_line = settings::line_of(Keyword::Occupancy, lines);
    let msc_line = settings::line_of(Keyword::Msc, lines);
    let (start, countdown) = (block.start, block.countdown);
    let (mode, occupancy) = (settings::mode(lines), settings::occupancy(lines));
    let (short_depth, msc, qam4) = (
        settings::short_depth(lines),
        settings::msc(lines),
        settings::qam4(lines),
    );
    let (prot_a, prot_b) = (settings::prot_a(lines), settings::prot_b(lines));
    let (room, clock) = (settings::room(lines), settings::clock(lines));
    let parts = gathered(alloc, block.lines)?;
    let blocks = or_one(parts.entities, parts.blocks)?;
    let block_lines = or_line(config_line, parts.block_lines)?;
    let config = Config {
        start,
        countdown,
        mode,
        occupancy,
        short_depth,
        msc,
        qam4,
        prot_a,
        prot_b,
        room,
        services: parts.services,
        streams: parts.streams,
        clock,
        blocks,
    };
    let places = LineNumbers {
        config: config_line,
        occupancy: occupancy_line,
        msc: msc_line,
        blocks: block_lines,
        streams: parts.stream_lines,
    };
    Ok((config, places))
}
