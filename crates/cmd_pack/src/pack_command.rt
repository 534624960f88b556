//! The command `pack`.

ghost use Rattle.std.specs.Prelude.{◌≡◌, ◌<◌, ◌≤◌, Err, IfOk, length};
ghost use Rattle.drm_links.specs.Known.{HasCause};
ghost use Rattle.cmd_pack.specs.Pack.{PackEnds, PackRun, JudgesInput};

use crate::packing::write_packets;
use crate::units::judge;
use cmd_faults::{Fault, UnitsFault, UnitsReason};
use cmd_input::read_front;
use drm_bits::{NoMemory, zeros};
use drm_links::{Sink, Source};
use std::alloc::Global;

/// The most bytes of an input.
const MOST_BYTES: usize = 16_777_216;

/// Reads units from `input` to its end, each a length of four bytes and its bytes, and writes their packets, of this packet
/// id and data length. Nothing is written before all of them are read.
pub fn pack<I: Source, O: Sink>(
    alloc: Global,
    id: u8,
    length: u8,
    input: &mut I,
    out: &mut O,
) -> Result<(), Fault>
    requires id { id < 4 }
    requires length { 1 ≤ length }
    ensures run { PackRun id length result I.known input.old input.new O.known out.old out.new }
{
    pack_whole(alloc, id, length, input, out)
}

fn pack_whole<I: Source, O: Sink>(
    alloc: Global,
    id: u8,
    length: u8,
    input: &mut I,
    out: &mut O,
) -> Result<(), Fault>
    requires id { id < 4 }
    requires length { 1 ≤ length }
    ensures ends { PackEnds id length result (I.known input.old) (I.known input.new) O.known out.old out.new }
    ensures memory { result ≡ Err Fault.NoMemory → (input.new ≡ input.old) × (out.new ≡ out.old) }
    ensures read { HasCause (I.known input.old) (I.known input.new) (result ≡ Err Fault.Read) }
    ensures write { HasCause (O.known out.old) (O.known out.new) (result ≡ Err Fault.Write) }
{
    let mut buffer = room_for(alloc, MOST_BYTES + 1)?;
    let len = read_front(input, &mut buffer)?;
    check(&buffer[..len])?;
    write_packets(id, length, &buffer[..len], out)?;
    Ok(())
}

// Room for so many bytes.
fn room_for(alloc: Global, len: usize) -> Result<Vec<u8>, NoMemory>
    ensures { IfOk result (λ buffer. length buffer.items ≡ len) }
{
    zeros(alloc, len)
}

// Whether the bytes are units. An input that is too long is refused before any of its units.
fn check(bytes: &[u8]) -> Result<(), Fault>
    ensures { JudgesInput bytes.now result }
{
    if bytes.len() > MOST_BYTES {
        return Err(Fault::Units(UnitsFault {
            at: MOST_BYTES as u64,
            reason: UnitsReason::TooLong,
        }));
    }
    judge(bytes)
}
