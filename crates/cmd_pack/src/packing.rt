//! Units, written as packets.

ghost use Rattle.std.specs.Prelude.{◌≡◌, ◌<◌, ◌≤◌, ℕ, List, [], OnOk};
ghost use Rattle.drm_links.specs.Sink.{WritesWhole};
ghost use Rattle.drm_data.specs.Units.{unit_packets};
ghost use Rattle.law_data.specs.Losses.{IsUnit};
ghost use Rattle.cmd_pack.specs.Units.{AreUnits};
ghost use Rattle.cmd_pack.specs.Packed.{AreWritten, ArePacked, after_unit};

use crate::units::{UnitFront, front_of};
use drm_data::Packer;
use drm_links::{Sink, WriteFault, write_all};

/// The most bytes of a packet.
const MOST_PACKET: usize = 258;

/// Writes the packets of the units that these bytes are.
pub(crate) fn write_packets<O: Sink>(
    id: u8,
    length: u8,
    bytes: &[u8],
    out: &mut O,
) -> Result<(), WriteFault>
    requires id { id < 4 }
    requires length { 1 ≤ length }
    ensures { (units : List (List ℕ)) → AreUnits units [] bytes.now
        → (text : List ℕ) × ArePacked id length units text
        × WritesWhole result (O.known out.old) (O.known out.new) text }
{
    let mut packer = Packer::new(id, length);
    let mut rest = bytes;
    'units: loop {
        match front_of(rest) {
            UnitFront::Unit { unit, rest: behind } => {
                write_unit(&mut packer, length, unit, out)?;
                rest = behind;
            }
            UnitFront::End => return Ok(()),
            UnitFront::Wrong(_) => return Ok(()),
        }
    }
}

// Writes the packets of a unit.
fn write_unit<O: Sink>(
    packer: &mut Packer,
    length: u8,
    unit: &[u8],
    out: &mut O,
) -> Result<(), WriteFault>
    requires length { length ≡ packer.old.length }
    requires at_least_one { 1 ≤ length }
    requires id { packer.old.id < 4 }
    requires continuity { packer.old.continuity < 8 }
    requires unit { IsUnit unit.now }
    ensures writes { (text : List ℕ)
        × AreWritten length (unit_packets packer.old.id length packer.old.continuity unit.now) text
        × WritesWhole result (O.known out.old) (O.known out.new) text }
    ensures after { OnOk result (packer.new ≡ after_unit packer.old unit.now) }
{
    let mut buffer = [0; MOST_PACKET];
    let count = unit.len().div_ceil(usize::from(length));
    for k in 0..count {
        let len = packer.unit_packet(unit, k, &mut buffer);
        write_all(out, &buffer[..len])?;
    }
    Ok(())
}
