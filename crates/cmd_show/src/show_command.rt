//! The command `show`.

ghost use Rattle.std.specs.Prelude.{◌≡◌};
ghost use Rattle.capture_reader.specs.Walking.{new_walker};
ghost use Rattle.report_dump.specs.PacketContent.{PacketBegins};
ghost use Rattle.report_dump.specs.Shown.{ShowsPacket};
ghost use Rattle.cmd_show.specs.Show.{ShowRun};

use capture_reader::{Packet, Packets, read_one_way};
use cmd_faults::Fault;
use drm_links::{Sink, Source, write_all};
use report_dump::{ShowFault, one_text, write_end_packets, write_packet};
use std::alloc::Global;
use text_output::LineBuffer;

/// Writes what is in each packet of a capture, as its bytes come. Answers whether no line says that something is bad.
pub fn show<I: Source, O: Sink>(alloc: Global, input: &mut I, out: &mut O) -> Result<bool, Fault>
    ensures { ShowRun result I.known input.old input.new O.known out.old out.new }
{
    // For their clauses alone: bytes are read in one way, and a packet has one text. The calls do nothing.
    read_one_way();
    one_text();
    let mut packets = Packets::make(alloc)?;
    let mut lines = LineBuffer::make(alloc)?;
    show_packets(alloc, &mut packets, &mut lines, input, out)
}

// Reads the packets one after another and writes what is in each. The reader of the capture is new.
fn show_packets<I: Source, O: Sink>(
    alloc: Global,
    packets: &mut Packets,
    lines: &mut LineBuffer,
    input: &mut I,
    out: &mut O,
) -> Result<bool, Fault>
    requires packets { packets.old ≡ new_walker }
    ensures { ShowRun result I.known input.old input.new O.known out.old out.new }
{
    // For their clauses alone, as in `show`.
    read_one_way();
    one_text();
    // How many packets and bytes were shown, and whether none is bad.
    let mut count = 0u64;
    let mut bytes = 0u64;
    let mut clean = true;
    while packets.find(input)? {
        let packet = packets.next();
        let Ok(bad) = show_packet(alloc, lines, &packet, out) else {
            return Err(Fault::Write);
        };
        count += 1;
        bytes += packet.bytes.len() as u64;
        clean &= !bad;
    }
    write_end_packets(out, count, bytes)?;
    Ok(clean)
}

// Writes the lines of a packet, in one call where they fit into the room.
fn show_packet<O: Sink>(
    alloc: Global,
    lines: &mut LineBuffer,
    packet: &Packet<'_>,
    out: &mut O,
) -> Result<bool, ShowFault>
    requires { PacketBegins packet.now.bytes.now }
    ensures { ShowsPacket result (O.known out.old) (O.known out.new) packet.now.at packet.now.bytes.now }
{
    lines.clear();
    let Ok(bad) = write_packet(alloc, lines, packet) else {
        return write_packet(alloc, out, packet);
    };
    match lines.text() {
        Some(text) => {
            let Ok(()) = write_all(out, text) else {
                return Err(ShowFault::Write);
            };
            Ok(bad)
        }
        None => write_packet(alloc, out, packet),
    }
}
