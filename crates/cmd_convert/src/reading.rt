//! The packets of an input, converted.

ghost use Rattle.std.specs.Prelude.{◌≡◌, Err};
ghost use Rattle.drm_links.specs.Known.{HasCause};
ghost use Rattle.dcp_collect.specs.CollectorState.{made};
ghost use Rattle.capture_reader.specs.Walking.{new_walker};
ghost use Rattle.capture_reader.specs.declared.packets.CaptureStop.{CaptureStop};
ghost use Rattle.recv_reading.specs.Options.{IsWithinLimits};
ghost use Rattle.cmd_convert.specs.declared.item.ItemError.{ItemError};
ghost use Rattle.cmd_convert.specs.Reading.{new_progress, ConversionEndsBy};

use crate::item::{ItemError, convert_next};
use crate::naming::Progress;
use capture_reader::{CaptureStop, Packets};
use dcp_collect::Collector;
use dcp_sender::PacketSender;
use drm_links::{Sink, Source};
use recv_reading::{PacketRange, Reading};
use report_text::LineWriter;

/// Why a conversion isn't whole.
#[derive(Clone, Copy, Debug, PartialEq, Eq)]
pub(crate) enum ConvertError {
    /// No more packets can be read.
    Stopped(CaptureStop),
    Halted(ItemError),
}

impl From<CaptureStop> for ConvertError {
    ghost use Rattle.std.specs.Prelude.{◌≡◌};
    ghost use Rattle.cmd_convert.specs.declared.reading.ConvertError.TheVariants.{Stopped};

    ghost from_gives = { λ stop why. why ≡ Stopped stop };

    fn from(stop: CaptureStop) -> Self {
        ConvertError::Stopped(stop)
    }
}

impl From<ItemError> for ConvertError {
    ghost use Rattle.std.specs.Prelude.{◌≡◌};
    ghost use Rattle.cmd_convert.specs.declared.reading.ConvertError.TheVariants.{Halted};

    ghost from_gives = { λ halt why. why ≡ Halted halt };

    fn from(halt: ItemError) -> Self {
        ConvertError::Halted(halt)
    }
}

// Reads a capture until no more is read, and converts each item as soon as it is ready.
pub(crate) fn convert_packets<I: Source, O: Sink, E: Sink>(
    collector: &mut Collector,
    cutter: &mut PacketSender,
    packets: &mut Packets,
    range: &PacketRange,
    progress: &mut Progress,
    lines: &mut LineWriter,
    input: &mut I,
    out: &mut O,
    err: &mut E,
) -> Result<(), ConvertError>
    requires range { IsWithinLimits range.now }
    requires collector { collector.old ≡ made range.now.window range.now.reach range.now.first }
    requires packets { packets.old ≡ new_walker }
    requires progress { progress.old ≡ new_progress }
    ensures ends { ConversionEndsBy result range.now cutter.old progress.new (I.known input.old) (I.known input.new)
        (O.known out.old) (O.known out.new) (E.known err.old) (E.known err.new) }
    ensures read { HasCause (I.known input.old) (I.known input.new) (result ≡ Err (ConvertError.Stopped CaptureStop.Read)) }
    ensures write { HasCause (O.known out.old) (O.known out.new) (result ≡ Err (ConvertError.Halted ItemError.Write)) }
{
    let mut reading = Reading::new(range.bounds());
    'packets: loop {
        if reading.gives(collector) {
            convert_next(collector, cutter, progress, lines, out, err)?;
            continue;
        }
        if reading.has_ended() {
            return Ok(());
        }
        reading.read_packet(collector, packets, input)?;
    }
}
