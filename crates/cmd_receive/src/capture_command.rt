//! The command `receive` without addresses.

ghost use Rattle.std.specs.Prelude.{◌≡◌};
ghost use Rattle.recv_reading.specs.Options.{AreInRange};
ghost use Rattle.cmd_receive.specs.Capture.{CaptureRun};
ghost use Rattle.cmd_receive.specs.Counted.{CountedCapture};
ghost use Rattle.cmd_receive.specs.Stopping.{captured_totals};

use crate::receive_command::clean;
use capture_reader::read_some_way;
use cmd_faults::Fault;
use drm_links::{Sink, Source};
use recv_reading::ReceiveOptions;
use recv_report::{CaptureReportError, in_time_is_unbroken, receive_capture, reports_follow};
use report_text::Totals;
use std::alloc::Global;

/// Reads a capture from `input` until enough is read, and writes its report as it is read. Answers whether no frame is
/// missing or bad.
pub fn receive_from_capture<I: Source, O: Sink>(
    alloc: Global,
    rules: &ReceiveOptions,
    input: &mut I,
    out: &mut O,
) -> Result<bool, Fault>
    requires { AreInRange rules.now }
    ensures run { CaptureRun rules.now result I.known input.old input.new O.known out.old out.new }
{
    clean(capture_totals(alloc, rules, input, out))
}

/// Receives so, and answers the totals of what came.
pub fn capture_totals<I: Source, O: Sink>(
    alloc: Global,
    rules: &ReceiveOptions,
    input: &mut I,
    out: &mut O,
) -> Result<Totals, Fault>
    requires { AreInRange rules.now }
    ensures run { CountedCapture rules.now result I.known input.old input.new O.known out.old out.new }
{
    // For their clauses alone: what a report says of a delivery, and that any bytes are read in some way. The calls do nothing.
    reports_follow();
    in_time_is_unbroken();
    read_some_way();
    captured_totals(receive_capture(alloc, rules, input, out))
}

// The totals of a run whose receiver ends so.
fn captured_totals(received: Result<Totals, CaptureReportError>) -> Result<Totals, Fault>
    ensures { result ≡ captured_totals received }
{
    match received {
        Ok(totals) => Ok(totals),
        Err(CaptureReportError::Stopped(stop)) => Err(stop.into()),
        Err(CaptureReportError::Write) => Err(Fault::Write),
        Err(CaptureReportError::NoMemory) => Err(Fault::NoMemory),
    }
}
