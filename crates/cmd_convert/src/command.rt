//! The command `convert`.

ghost use Rattle.std.specs.Prelude.{◌≡◌, [], true, IfOk};
ghost use Rattle.dcp_collect.specs.CollectorState.{made};
ghost use Rattle.capture_reader.specs.Walking.{new_walker};
ghost use Rattle.dcp_pft.specs.Carrying.{CarryFits};
ghost use Rattle.cmd_convert.specs.Reading.{ending_of};
ghost use Rattle.cmd_convert.specs.Run.{ConvertRun};
ghost use Rattle.recv_reading.specs.Options.{IsWithinLimits};

use crate::item::ItemError;
use crate::naming::Progress;
use crate::reading::{ConvertError, convert_packets};
use capture_reader::{Packets, read_one_way, read_some_way};
use cmd_faults::Fault;
use dcp_collect::Collector;
use dcp_pft::Carry;
use dcp_sender::PacketSender;
use drm_bits::NoMemory;
use drm_links::{Sink, Source};
use law_capture::packets_in_front;
use recv_reading::PacketRange;
use report_text::LineWriter;
use std::alloc::Global;

/// Reads a capture from `input`, and writes its packets under a carry to `out`; each that is missing or bad is named on
/// `err`. Answers whether there is none. A failure of `err` changes nothing, but then `err_ok` doesn't hold afterwards.
pub fn convert<I: Source, O: Sink, E: Sink>(
    alloc: Global,
    carry: Carry,
    range: &PacketRange,
    input: &mut I,
    out: &mut O,
    err: &mut E,
    err_ok: &mut bool,
) -> Result<bool, Fault>
    requires carry { CarryFits carry }
    requires range { IsWithinLimits range.now }
    requires err_ok { err_ok.old ≡ true }
    ensures run { ConvertRun range.now carry result err_ok.new
        I.known input.old input.new O.known out.old out.new E.known err.old err.new }
{
    // For their clauses alone: how bytes are read as a capture. The calls do nothing.
    read_one_way();
    read_some_way();
    packets_in_front();
    let (mut collector, mut cutter, mut packets, mut lines) = parts(alloc, carry, range)?;
    let mut progress = Progress {
        given: 0,
        clean: true,
        err_ok: true,
    };
    let converted = convert_packets(
        &mut collector,
        &mut cutter,
        &mut packets,
        range,
        &mut progress,
        &mut lines,
        input,
        out,
        err,
    );
    *err_ok = progress.err_ok;
    ending(converted, progress.clean)
}

// What a conversion works with. All memory is taken here.
fn parts(
    alloc: Global,
    carry: Carry,
    range: &PacketRange,
) -> Result<(Collector, PacketSender, Packets, LineWriter), NoMemory>
    requires carry { CarryFits carry }
    requires range { IsWithinLimits range.now }
    ensures { IfOk result (λ parts. (parts.0 ≡ made range.now.window range.now.reach range.now.first)
        × (parts.1 ≡ carry) × (parts.2 ≡ new_walker) × (parts.3 ≡ [])) }
{
    let collector = Collector::make(alloc, range.window, range.reach, range.first)?;
    let cutter = PacketSender::make(alloc, carry)?;
    let packets = Packets::make(alloc)?;
    let lines = LineWriter::make(alloc)?;
    Ok((collector, cutter, packets, lines))
}

// How a run ends whose conversion ends so.
fn ending(converted: Result<(), ConvertError>, clean: bool) -> Result<bool, Fault>
    ensures { result ≡ ending_of converted clean }
{
    match converted {
        Ok(()) => Ok(clean),
        Err(ConvertError::Stopped(stop)) => Err(stop.into()),
        Err(ConvertError::Halted(ItemError::Write)) => Err(Fault::Write),
        Err(ConvertError::Halted(ItemError::PacketSize(number))) => Err(Fault::PacketSize(number)),
    }
}
