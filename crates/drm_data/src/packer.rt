//! Units become packets.

ghost use Rattle.std.specs.Prelude.{◌≡◌, ◌+◌, ◌*◌, ◌<◌, ◌≤◌, length, take, drop};
ghost use Rattle.drm_data.specs.Units.{unit_packet as packet_of_unit, most_unit};
ghost use Rattle.drm_data.specs.Writing.{IsWrittenPacket, new_packer, after_packet};

use crate::DataPacket;
use crate::write::write_packet;
use std::marker::Model;

/// Makes the packets of units, one unit after another, under one packet id.
#[derive(Drop)]
pub struct Packer {
    id: u8,
    length: u8,
    // The continuity of the next packet.
    continuity: u8,
}

impl Model for Packer {
    ghost use Rattle.std.specs.Prelude.{◌<◌, ◌≤◌};
    ghost use Rattle.drm_data.specs.Writing.{Packing};

    ghost Value = { Packing };

    ghost view = { λ p. record { id = p.id; length = p.length; continuity = p.continuity } };

    ghost invariant = { λ p. (p.id < 4) × (1 ≤ p.length) × (p.continuity < 8) };
}

impl Packer {
    /// A packer under this packet id, whose packets have data fields of `length` bytes.
    pub fn new(id: u8, length: u8) -> Packer
        requires id { id < 4 }
        requires length { 1 ≤ length }
        ensures { result ≡ new_packer id length }
    {
        Packer {
            id,
            length,
            continuity: 0,
        }
    }

    /// Writes packet `k` of a unit, and answers how many bytes it has. The packets of a unit are asked for in their order,
    /// from 0 on, and those of the next unit behind them.
    pub fn unit_packet(&mut self, unit: &[u8], k: usize, into: &mut [u8; 258]) -> usize
        requires within_limit { length unit.now ≤ most_unit }
        requires within { k * self.old.length < length unit.now }
        ensures end { result ≡ self.old.length + 3 }
        ensures packet { IsWrittenPacket self.old.length
            (packet_of_unit self.old.id self.old.length self.old.continuity unit.now k) (take result into.new) }
        ensures behind { drop result into.new ≡ drop result into.old }
        ensures after { self.new ≡ after_packet self.old }
    {
        let data = usize::from(self.length);
        let rest = &unit[k * data..];
        let packet = DataPacket {
            first: k == 0,
            last: rest.len() <= data,
            id: self.id,
            continuity: self.continuity,
            useful: front(rest, data),
        };
        self.continuity = (self.continuity + 1) % 8;
        write_packet(&packet, data, into)
    }
}

// The first bytes of these, so many, or all.
fn front(bytes: &[u8], most: usize) -> &[u8]
    ensures { result.now ≡ take most bytes.now }
{
    &bytes[..bytes.len().min(most)]
}
