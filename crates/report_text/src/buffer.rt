//! A report in memory, which grows, as a sink.

ghost use Rattle.std.specs.Prelude.{◌≡◌, ◌↔◌, [], Some, IsTrue, IsSome};
ghost use Rattle.report_text.specs.Texts.{text_known};

use drm_links::{Sink, WriteOut};
use std::alloc::Global;

/// The text of a report, in memory.
#[derive(Drop)]
pub struct ReportBuffer {
    bytes: Vec<u8>,
    calls: u64,
    faults: u64,
}

/// A text tells what was written for so many calls.
const MOST_CALLS: u64 = 1 << 62;

impl ReportBuffer {
    pub fn new(alloc: Global) -> ReportBuffer
        ensures { (text_known result).contents ≡ Some (record { written = []; calls = 0 }) }
    {
        ReportBuffer {
            bytes: Vec::new(alloc),
            calls: 0,
            faults: 0,
        }
    }

    /// Whether it still tells what was written.
    pub fn is_complete(&self) -> bool
        ensures { IsTrue result ↔ IsSome (text_known self.now).contents }
    {
        self.calls <= MOST_CALLS
    }

    pub fn bytes(&self) -> &[u8]
        ensures { result.now ≡ self.now.bytes.items }
    {
        &self.bytes
    }
}

impl Sink for ReportBuffer {
    ghost known = { text_known };

    fn write(&mut self, bytes: &[u8]) -> WriteOut {
        self.calls = self.calls.saturating_add(1);
        if self.bytes.extend_from_slice(bytes).is_err() {
            self.faults = self.faults.saturating_add(1);
            return WriteOut::Failed;
        }
        WriteOut::Wrote(bytes.len())
    }
}
