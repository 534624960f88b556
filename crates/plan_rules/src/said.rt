//! What the lines of a text say, in their order.

ghost use Rattle.std.specs.Prelude.{◌≡◌, OnOk};
ghost use Rattle.plan_rules.specs.ParsedLine.{add};

use drm_bits::NoMemory;
use drm_schedule::OwnedList;
use plan_lines::Line;
use std::alloc::Global;

/// What a line says, and its number.
#[derive(Drop)]
pub struct ParsedLine {
    pub line: u32,
    pub says: Line,
}

/// A configuration: its config line, and what the lines after it say.
#[derive(Drop)]
pub struct ConfigLines {
    pub line: u32,
    pub start: u32,
    pub countdown: u8,
    pub lines: OwnedList<ParsedLine>,
}

/// What the lines so far say: those before the first config line, the configurations that a later config line ended,
/// and the last one.
#[derive(Drop)]
pub struct ParsedText {
    pub front: OwnedList<ParsedLine>,
    pub closed: OwnedList<ConfigLines>,
    pub current: Option<ConfigLines>,
}

impl ParsedText {
    ghost use Rattle.plan_rules.specs.ParsedLine.{nothing, put};

    pub fn new(alloc: Global) -> ParsedText
        ensures { result ≡ nothing }
    {
        ParsedText {
            front: OwnedList::new(alloc),
            closed: OwnedList::new(alloc),
            current: None,
        }
    }

    fn begin(&mut self, alloc: Global, line: u32, start: u32, countdown: u8) -> Result<(), NoMemory>
        ensures { OnOk result (self.new ≡ add line (Line.Config start countdown) self.old) }
    {
        let next = ConfigLines {
            line,
            start,
            countdown,
            lines: OwnedList::new(alloc),
        };
        if let Some(block) = self.current.replace(next) {
            self.closed.push(block)?;
        }
        Ok(())
    }

    fn put(&mut self, said: ParsedLine) -> Result<(), NoMemory>
        ensures { OnOk result (self.new ≡ put said self.old) }
    {
        match &mut self.current {
            Some(block) => block.lines.push(said),
            None => self.front.push(said),
        }
    }

    /// One more line.
    pub fn add(&mut self, alloc: Global, line: u32, says: Line) -> Result<(), NoMemory>
        ensures { OnOk result (self.new ≡ add line says self.old) }
    {
        match says {
            Line::Config { start, countdown } => self.begin(alloc, line, start, countdown),
            says => self.put(ParsedLine { line, says }),
        }
    }
}
