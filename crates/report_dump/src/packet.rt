//! A packet of a capture.

ghost use Rattle.std.specs.Prelude.{◌≡◌, take};
ghost use Rattle.dcp_pft.specs.Head.{sync};
ghost use Rattle.report_dump.specs.PacketContent.{PacketBegins};
ghost use Rattle.report_dump.specs.Shown.{ShowsPacket, answer};

use crate::bad::{plain, write_bad};
use crate::fragment::write_fragment;
use crate::whole::write_af;
use capture_reader::Packet;
use dcp_pft::read_fragment;
use drm_links::{Sink, WriteFault};
use report_text::pft_words;
use std::alloc::Global;

/// A packet wasn't shown.
#[derive(Clone, Copy, Debug, PartialEq, Eq)]
pub enum ShowFault {
    /// The sink failed.
    Write,
    /// Memory ran out. None is wanted for now.
    NoMemory,
}

/// Writes the lines that tell what a packet has in it, and answers whether one of them tells what is wrong. No memory is
/// taken.
pub fn write_packet<O: Sink>(
    _alloc: Global,
    out: &mut O,
    packet: &Packet<'_>,
) -> Result<bool, ShowFault>
    requires { PacketBegins packet.now.bytes.now }
    ensures { ShowsPacket result (O.known out.old) (O.known out.new) packet.now.at packet.now.bytes.now }
{
    if packet.bytes.starts_with(b"PF") {
        write_pft(out, packet.at, packet.bytes)
    } else {
        write_af(out, packet.at, packet.bytes)
    }
}

// Writes the line of a fragment.
fn write_pft<O: Sink>(out: &mut O, at: u64, bytes: &[u8]) -> Result<bool, ShowFault>
    requires { take 2 bytes.now ≡ sync }
    ensures { ShowsPacket result (O.known out.old) (O.known out.new) at bytes.now }
{
    match read_fragment(bytes) {
        Ok(fragment) => answer(write_fragment(out, at, &fragment), false),
        Err(fault) => answer(write_bad(out, at, plain(pft_words(fault))), true),
    }
}

/// The answer where the lines of a packet are written, or a write failed.
pub(crate) fn answer(written: Result<(), WriteFault>, bad: bool) -> Result<bool, ShowFault>
    ensures { result ≡ answer written bad }
{
    match written {
        Ok(()) => Ok(bad),
        Err(_) => Err(ShowFault::Write),
    }
}
