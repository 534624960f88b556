//! The lines that a fault can name.

ghost use Rattle.std.specs.Prelude.{◌≡◌};
ghost use Rattle.drm_plan.specs.Draft.{line_in, line_of_place, or_zero};
ghost use Rattle.drm_plan.specs.Lookup.{at};

use drm_schedule::{OwnedList, Place};

/// The lines of a configuration that a fault can name, from 1.
#[derive(Drop)]
pub struct LineNumbers {
    pub config: u32,
    pub occupancy: u32,
    pub msc: u32,
    /// Those of its blocks, in their order: the config line, where no line begins one.
    pub blocks: OwnedList<u32>,
    /// Those of its streams, in their order.
    pub streams: OwnedList<u32>,
}

fn line_in(lines: &LineNumbers, place: Place) -> u32
    ensures { result ≡ line_in lines.now place }
{
    match place {
        Place::Config => lines.config,
        Place::Occupancy => lines.occupancy,
        Place::Msc => lines.msc,
        Place::Block(block) => line_at(lines.blocks.as_slice(), block),
        Place::Stream(stream) => line_at(lines.streams.as_slice(), stream),
    }
}

fn line_at(lines: &[u32], number: usize) -> u32
    ensures { result ≡ or_zero (at number lines.now) }
{
    match lines.get(number) {
        Some(line) => *line,
        None => 0,
    }
}

/// The line of this place of the configuration with this number, from 0.
pub fn place_line(all: &[LineNumbers], config: usize, place: Place) -> u32
    ensures { result ≡ line_of_place all.now config place }
{
    match all.get(config) {
        Some(lines) => line_in(lines, place),
        None => 0,
    }
}
