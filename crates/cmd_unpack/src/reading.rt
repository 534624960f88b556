//! The items of a capture, read and taken.

ghost use Rattle.std.specs.Prelude.{◌≡◌, ◌^◌, [], Err, Ok, OnOk};
ghost use Rattle.dcp_collect.specs.CollectorState.{made};
ghost use Rattle.drm_links.specs.Known.{HasCause};
ghost use Rattle.capture_reader.specs.Walking.{new_walker};
ghost use Rattle.recv_reading.specs.Options.{IsWithinLimits};
ghost use Rattle.cmd_unpack.specs.Streams.{PayloadKind};
ghost use Rattle.cmd_unpack.specs.Taken.{AreBelow, counts_in, IsTakerReady, TakerTook, TakesAll};
ghost use Rattle.cmd_unpack.specs.Run.{DataEnds};

use crate::taker::Taker;
use capture_reader::Packets;
use cmd_faults::Fault;
use dcp_collect::Collector;
use drm_links::{Sink, Source};
use mod_feed::Feed;
use recv_reading::{PacketRange, Reading};
use std::alloc::Global;

/// Reads a capture, hands each item to the taker as soon as it is ready, and writes what is printed of them. Answers whether
/// nothing is cut, bad or missing. All memory that the reading wants is taken first.
pub(crate) fn take_capture<I: Source, O: Sink>(
    alloc: Global,
    range: &PacketRange,
    taker: &mut Taker,
    input: &mut I,
    out: &mut O,
) -> Result<bool, Fault>
    requires range { IsWithinLimits range.now }
    requires ready { IsTakerReady taker.old }
    requires none { AreBelow (counts_in taker.old) 0 }
    ensures ends { (what : PayloadKind) → TakerTook what [] [] taker.old
        → DataEnds range.now what result (I.known input.old) (I.known input.new) (O.known out.old) (O.known out.new) }
    ensures memory { result ≡ Err Fault.NoMemory → (input.new ≡ input.old) × (out.new ≡ out.old) }
    ensures read { HasCause (I.known input.old) (I.known input.new) (result ≡ Err Fault.Read) }
    ensures write { HasCause (O.known out.old) (O.known out.new) (result ≡ Err Fault.Write) }
{
    let mut collector = Collector::make(alloc, range.window, range.reach, range.first)?;
    let mut packets = Packets::make(alloc)?;
    take_items(&mut collector, &mut packets, range, taker, input, out)?;
    taker.end(out)?;
    Ok(taker.is_clean())
}

// Gives the items one after another to the taker, up to the told number. A packet is read where none is ready.
fn take_items<I: Source, O: Sink>(
    collector: &mut Collector,
    packets: &mut Packets,
    range: &PacketRange,
    taker: &mut Taker,
    input: &mut I,
    out: &mut O,
) -> Result<(), Fault>
    requires range { IsWithinLimits range.now }
    requires collector { collector.old ≡ made range.now.window range.now.reach range.now.first }
    requires packets { packets.old ≡ new_walker }
    requires ready { IsTakerReady taker.old }
    requires none { AreBelow (counts_in taker.old) 0 }
    ensures takes { (what : PayloadKind) → TakerTook what [] [] taker.old
        → TakesAll range.now what result taker.new (I.known input.old) (I.known input.new) (O.known out.old) (O.known out.new) }
    ensures room { OnOk result (AreBelow (counts_in taker.new) (2 ^ 126)) }
    ensures read { HasCause (I.known input.old) (I.known input.new) (result ≡ Err Fault.Read) }
    ensures write { HasCause (O.known out.old) (O.known out.new) (result ≡ Err Fault.Write) }
    ensures memory { result ≡ Err Fault.NoMemory → ⊥ }
{
    let mut feed = Feed::new();
    let mut reading = Reading::new(range.bounds());
    'items: loop {
        if reading.gives(collector) {
            let Some(next) = collector.next() else {
                unreachable!()
            };
            taker.take(&feed.step(next).item, out)?;
            continue;
        }
        if reading.has_ended() {
            return Ok(());
        }
        reading.read_packet(collector, packets, input)?;
    }
}
