//! The lines of items on their way out.

ghost use Rattle.std.specs.Prelude.{◌≡◌, [], IfOk};
ghost use Rattle.mod_feed.specs.Items.{IsReadItem};
ghost use Rattle.mod_feed.specs.Feeding.{step_of};
ghost use Rattle.report_text.specs.Report.{step_text};
ghost use Rattle.drm_links.specs.Sink.{WritesWhole};
ghost use Rattle.text_output.specs.Gathering.{PutsText, FlushesText};

use crate::step::write_step;
use drm_bits::NoMemory;
use drm_links::{Sink, WriteFault, write_all};
use mod_feed::Step;
use std::alloc::Global;
use std::marker::Model;
use text_output::{Gathered, LineBuffer};

/// Writes the lines of items. Those of one item are put together, so that they go out in one call, and short ones are gathered until
/// they are flushed. All its memory is taken where it is made.
#[derive(Drop)]
pub struct LineWriter {
    lines: LineBuffer,
    gathered: Gathered,
}

impl Model for LineWriter {
    ghost use Rattle.std.specs.Prelude.{ℕ, List};

    ghost Value = { List ℕ };

    ghost view = { λ writer. writer.gathered };
}

impl LineWriter {
    /// Nothing is gathered yet.
    pub fn make(alloc: Global) -> Result<LineWriter, NoMemory>
        ensures { IfOk result (λ writer. writer ≡ []) }
    {
        Ok(LineWriter {
            lines: LineBuffer::make(alloc)?,
            gathered: Gathered::make(alloc)?,
        })
    }

    /// Forgets what is gathered.
    pub fn clear(&mut self)
        ensures { self.new ≡ [] }
    {
        self.gathered.clear();
    }

    /// Writes the lines of a step. What has no room goes out piece by piece.
    pub fn write_step<O: Sink>(&mut self, out: &mut O, step: &Step<'_>) -> Result<(), WriteFault>
        requires { IsReadItem step.now.item }
        ensures same { self.new ≡ self.old }
        ensures writes { WritesWhole result (O.known out.old) (O.known out.new) (step_text (step_of step.now)) }
    {
        self.lines.clear();
        if write_step(&mut self.lines, step).is_ok() {
            if let Some(text) = self.lines.text() {
                return write_all(out, text);
            }
        }
        write_step(out, step)
    }

    /// Puts the lines of a step behind those that are gathered. What has no room goes out piece by piece.
    pub fn put_step<O: Sink>(&mut self, out: &mut O, step: &Step<'_>) -> Result<(), WriteFault>
        requires { IsReadItem step.now.item }
        ensures { PutsText result self.old self.new (O.known out.old) (O.known out.new) (step_text (step_of step.now)) }
    {
        self.lines.clear();
        if write_step(&mut self.lines, step).is_ok() {
            if let Some(text) = self.lines.text() {
                return self.gathered.put(out, text);
            }
        }
        self.gathered.flush(out)?;
        write_step(out, step)
    }

    /// Writes all that is gathered.
    pub fn flush<O: Sink>(&mut self, out: &mut O) -> Result<(), WriteFault>
        ensures { FlushesText result self.old self.new (O.known out.old) (O.known out.new) }
    {
        self.gathered.flush(out)
    }
}
