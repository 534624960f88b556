//! A schedule's canonical text, written.

ghost use Rattle.std.specs.Prelude.{ℕ, List, ◌≡◌, ◌++◌, IfOk, OnOk};
ghost use Rattle.std.specs.List.{flat_map};
ghost use Rattle.plan_grammar.specs.declared.line.Line.TheVariants as lines;
ghost use Rattle.plan_grammar.specs.Said.{line_text};
ghost use Rattle.plan_writer.specs.Canonical.{text_of, front_lines, settings_lines, clock_lines, block_lines, config_lines, canonical};

use crate::{write_entity, write_line, write_stream};
use drm_bits::{NoMemory, Octets};
use drm_schedule::{Clock, Config, Entity, Schedule, Service, Stream, Timed};
use plan_grammar::{Line, Version};
use std::alloc::Global;

/// What is written as lines.
trait Written {
    /// The text of its lines.
    ghost text: { Self → List ℕ };

    fn write_to(&self, alloc: Global, out: &mut Vec<u8>) -> Result<(), NoMemory>
        ensures { OnOk result (out.new.items ≡ out.old.items ++ text self.now) };
}

fn write_all<T: Written>(alloc: Global, out: &mut Vec<u8>, all: &[T]) -> Result<(), NoMemory>
    ensures { OnOk result (out.new.items ≡ out.old.items ++ flat_map T.text all.now) }
{
    for one in all {
        one.write_to(alloc, out)?;
    }
    Ok(())
}

impl Written for Line {
    ghost text = { line_text };

    fn write_to(&self, alloc: Global, out: &mut Vec<u8>) -> Result<(), NoMemory> {
        write_line(alloc, out, self)
    }
}

impl Written for Service {
    ghost text = { λ service. line_text (lines.Service service) };

    fn write_to(&self, alloc: Global, out: &mut Vec<u8>) -> Result<(), NoMemory> {
        write_line(alloc, out, &Line::Service(*self))
    }
}

impl Written for Stream {
    ghost text = { λ stream. line_text (lines.Stream stream) };

    fn write_to(&self, alloc: Global, out: &mut Vec<u8>) -> Result<(), NoMemory> {
        write_stream(alloc, out, self)
    }
}

impl Written for Entity {
    ghost text = { λ entity. line_text (lines.Entity entity) };

    fn write_to(&self, alloc: Global, out: &mut Vec<u8>) -> Result<(), NoMemory> {
        write_entity(alloc, out, self)
    }
}

impl Written for Timed {
    ghost text = { λ block. text_of (block_lines block) };

    fn write_to(&self, alloc: Global, out: &mut Vec<u8>) -> Result<(), NoMemory> {
        let from = self.from;
        write_line(alloc, out, &Line::Block { from })?;
        write_all(alloc, out, self.entities.as_slice())?;
        Ok(())
    }
}

impl Written for Config {
    ghost text = { λ config. text_of (config_lines config) };

    fn write_to(&self, alloc: Global, out: &mut Vec<u8>) -> Result<(), NoMemory> {
        write_settings(alloc, out, self)?;
        write_all(alloc, out, self.services.as_slice())?;
        write_all(alloc, out, self.streams.as_slice())?;
        write_clock(alloc, out, self.clock)?;
        write_all(alloc, out, self.blocks.as_slice())?;
        Ok(())
    }
}

// The four first lines.
#[tactic(auto, unfolding(crate::specs::Canonical::text_of))]
fn write_front(alloc: Global, out: &mut Vec<u8>, plan: &Schedule) -> Result<(), NoMemory>
    ensures { OnOk result (out.new.items ≡ out.old.items ++ text_of (front_lines plan.now)) }
{
    let (seq, dlfc) = (plan.seq(), plan.dlfc());
    let lines = [
        Line::Version(Version::Two),
        Line::Carry(plan.carry()),
        Line::First { seq, dlfc },
        Line::Length(plan.length()),
    ];
    write_all(alloc, out, &lines)
}

// The config line, and the settings after it.
#[tactic(auto, unfolding(crate::specs::Canonical::text_of))]
fn write_settings(alloc: Global, out: &mut Vec<u8>, config: &Config) -> Result<(), NoMemory>
    ensures { OnOk result (out.new.items ≡ out.old.items ++ text_of (settings_lines config.now)) }
{
    let (start, countdown) = (config.start, config.countdown);
    let (short, qam4) = (config.short_depth, config.qam4);
    let (a, b) = (config.prot_a, config.prot_b);
    let lines = [
        Line::Config { start, countdown },
        Line::Mode(config.mode),
        Line::Occupancy(config.occupancy),
        Line::Depth { short },
        Line::Msc(config.msc),
        Line::Sdc { qam4 },
        Line::Protection { a, b },
        Line::Room(config.room),
    ];
    write_all(alloc, out, &lines)
}

#[tactic(auto, unfolding(crate::specs::Canonical::text_of))]
fn write_clock(alloc: Global, out: &mut Vec<u8>, clock: Option<Clock>) -> Result<(), NoMemory>
    ensures { OnOk result (out.new.items ≡ out.old.items ++ text_of (clock_lines clock)) }
{
    match clock {
        Some(clock) => write_line(alloc, out, &Line::Clock(clock)),
        None => Ok(()),
    }
}

/// The canonical text of a schedule.
pub fn write_plan(alloc: Global, plan: &Schedule) -> Result<Octets, NoMemory>
    ensures { IfOk result (λ text. text ≡ canonical plan.now) }
{
    let mut out = Vec::new(alloc);
    write_front(alloc, &mut out, plan)?;
    write_all(alloc, &mut out, plan.configs().as_slice())?;
    Ok(Octets::from_slice(alloc, &out)?)
}
