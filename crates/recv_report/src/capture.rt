//! A receiver of a capture: it reads packets until it has read enough, and writes the report of what came.

ghost use Rattle.std.specs.Prelude.{◌≡◌, Err};
ghost use Rattle.drm_links.specs.Known.{HasCause};
ghost use Rattle.capture_reader.specs.declared.packets.CaptureStop.{CaptureStop};
ghost use Rattle.recv_reading.specs.Options.{AreInRange};
ghost use Rattle.recv_report.specs.Captures.{EndsReceiving};
ghost use Rattle.recv_report.specs.declared.capture.CaptureReportError.{CaptureReportError};

use crate::reading::{ReceiveFault, write_report};
use capture_reader::{CaptureStop, Packets};
use dcp_collect::Collector;
use drm_bits::NoMemory;
use drm_links::{Sink, Source};
use mod_feed::Feed;
use recv_reading::{ReceiveOptions, SourceFault};
use report_text::Totals;
use std::alloc::Global;

/// Why the report of a capture isn't whole.
#[derive(Clone, Copy, Debug, PartialEq, Eq)]
pub enum CaptureReportError {
    /// No more packets can be read.
    Stopped(CaptureStop),
    Write,
    NoMemory,
}

impl From<NoMemory> for CaptureReportError {
    ghost use Rattle.std.specs.Prelude.{◌≡◌};
    ghost use Rattle.recv_report.specs.declared.capture.CaptureReportError.TheVariants as unfinished;

    ghost from_gives = { λ _ why. why ≡ unfinished.NoMemory };

    fn from(_: NoMemory) -> Self {
        CaptureReportError::NoMemory
    }
}

/// Takes all memory that it wants, reads the packets of a capture until it has read enough, and writes their report, which
/// has the number 1. Answers the totals of what came. An item is written as soon as it is ready.
pub fn receive_capture<I: Source, O: Sink>(
    alloc: Global,
    rules: &ReceiveOptions,
    input: &mut I,
    out: &mut O,
) -> Result<Totals, CaptureReportError>
    requires { AreInRange rules.now }
    ensures ended { EndsReceiving rules.now (I.known input.old) (I.known input.new)
        (O.known out.old) (O.known out.new) result }
    ensures memory { result ≡ Err CaptureReportError.NoMemory → (input.new ≡ input.old) × (out.new ≡ out.old) }
    ensures read { HasCause (I.known input.old) (I.known input.new)
        (result ≡ Err (CaptureReportError.Stopped CaptureStop.Read)) }
    ensures write { HasCause (O.known out.old) (O.known out.new) (result ≡ Err CaptureReportError.Write) }
{
    let mut collector = Collector::make(alloc, rules.window, rules.reach, rules.first)?;
    let mut packets = Packets::make(alloc)?;
    let mut feed = Feed::new();
    match write_report(
        alloc,
        1,
        rules.bounds(),
        &mut collector,
        &mut feed,
        &mut packets,
        input,
        out,
    ) {
        Ok(totals) => Ok(totals),
        Err(ReceiveFault::Source(SourceFault::Capture(stop))) => Err(CaptureReportError::Stopped(
            stop,
        )),
        Err(ReceiveFault::Source(SourceFault::Link)) => unreachable!(),
        Err(ReceiveFault::Write) => Err(CaptureReportError::Write),
        Err(ReceiveFault::NoMemory) => Err(CaptureReportError::NoMemory),
    }
}
