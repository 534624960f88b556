//! Room for lines, as a sink.

ghost use Rattle.std.specs.Prelude.{◌≡◌, ◌↔◌, [], Some, IsSome, IfSome};
ghost use Rattle.text_output.specs.Lines.{lines_known};

use drm_bits::NoMemory;
use drm_links::{Sink, WriteOut};
use std::alloc::Global;
use std::marker::Model;

const MOST_BYTES: usize = 262_144;

/// It tells what was written for so many calls.
const MOST_CALLS: u64 = 1 << 62;

/// Room for lines, so that they go out in one call. All its memory is taken where it is made.
#[derive(Drop)]
pub struct LineBuffer {
    bytes: Vec<u8>,
    calls: u64,
    faults: u64,
}

impl Model for LineBuffer {
    ghost use Rattle.std.specs.Prelude.{◌≤◌, vec_len, vec_capacity};
    ghost use Rattle.text_output.specs.Lines.{LinesState};

    ghost Value = { LinesState };

    ghost view = { λ lines. record { bytes = lines.bytes.items; calls = lines.calls; faults = lines.faults } };

    ghost invariant = { λ lines. (vec_len lines.bytes ≤ 262144) × (262144 ≤ vec_capacity lines.bytes) };
}

impl LineBuffer {
    /// Room in which nothing lies yet.
    pub fn make(alloc: Global) -> Result<LineBuffer, NoMemory> {
        Ok(LineBuffer {
            bytes: Vec::with_capacity(alloc, MOST_BYTES)?,
            calls: 0,
            faults: 0,
        })
    }

    /// Takes out what lies in it.
    pub fn clear(&mut self)
        ensures { (lines_known self.new).contents ≡ Some (record { written = []; calls = 0 }) }
    {
        self.bytes.clear();
        self.calls = 0;
    }

    /// What lies in it, where it still tells that.
    pub fn text(&self) -> Option<&[u8]>
        ensures complete { IsSome result ↔ IsSome (lines_known self.now).contents }
        ensures text { IfSome result (λ text. text.now ≡ self.now.bytes) }
    {
        if self.calls <= MOST_CALLS {
            Some(&self.bytes)
        } else {
            None
        }
    }
}

impl Sink for LineBuffer {
    ghost known = { lines_known };

    fn write(&mut self, bytes: &[u8]) -> WriteOut {
        self.calls = self.calls.saturating_add(1);
        if MOST_BYTES - self.bytes.len() < bytes.len() {
            self.faults = self.faults.saturating_add(1);
            return WriteOut::Failed;
        }
        let Ok(()) = self.bytes.extend_from_slice(bytes) else {
            unreachable!()
        };
        WriteOut::Wrote(bytes.len())
    }
}
