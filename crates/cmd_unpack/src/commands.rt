//! The commands `unpack` and `texts`.

ghost use Rattle.std.specs.Prelude.{◌<◌, ◌≤◌};
ghost use Rattle.recv_reading.specs.Options.{IsWithinLimits};
ghost use Rattle.cmd_unpack.specs.Streams.{UnitsOf, TextsOf};
ghost use Rattle.cmd_unpack.specs.Run.{DataRun};

use crate::counts::no_counts;
use crate::messages::MessageTaker;
use crate::reading::take_capture;
use crate::taker::Taker;
use crate::units::UnitTaker;
use capture_reader::read_one_way;
use cmd_faults::Fault;
use drm_data::Joiner;
use drm_links::{Sink, Source};
use drm_text::TextJoiner;
use law_capture::packets_in_front;
use recv_reading::PacketRange;
use std::alloc::Global;

/// Receives a capture from `input`, and writes the units in a stream of its frames, of this packet id and data length, each
/// as it comes, and which were cut. Answers whether nothing is cut, bad or missing.
pub fn unpack<I: Source, O: Sink>(
    alloc: Global,
    stream: u8,
    id: u8,
    length: u8,
    range: &PacketRange,
    input: &mut I,
    out: &mut O,
) -> Result<bool, Fault>
    requires stream { stream < 4 }
    requires id { id < 4 }
    requires length { 1 ≤ length }
    requires range { IsWithinLimits range.now }
    ensures run { DataRun range.now (UnitsOf stream id length) result
        I.known input.old input.new O.known out.old out.new }
{
    // For their clauses alone: how bytes are read as a capture. The calls do nothing.
    read_one_way();
    packets_in_front();
    let joiner = Joiner::make(alloc, id, length)?;
    let mut taker = Taker::Units(UnitTaker {
        stream,
        length,
        joiner,
        counts: no_counts(),
    });
    take_capture(alloc, range, &mut taker, input, out)
}

/// Receives a capture from `input`, and writes the text messages in a stream of its frames, each as it comes. Answers whether
/// nothing is bad or missing.
pub fn texts<I: Source, O: Sink>(
    alloc: Global,
    stream: u8,
    range: &PacketRange,
    input: &mut I,
    out: &mut O,
) -> Result<bool, Fault>
    requires stream { stream < 4 }
    requires range { IsWithinLimits range.now }
    ensures run { DataRun range.now (TextsOf stream) result
        I.known input.old input.new O.known out.old out.new }
{
    // For their clauses alone, as in `unpack`.
    read_one_way();
    packets_in_front();
    let mut taker = Taker::Messages(MessageTaker {
        stream,
        joiner: TextJoiner::new(),
        counts: no_counts(),
    });
    take_capture(alloc, range, &mut taker, input, out)
}
