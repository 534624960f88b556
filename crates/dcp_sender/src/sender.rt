//! Packets under a carry.

ghost use Rattle.std.specs.Prelude.{◌≡◌, ◌≤◌, ℕ, List, false, length, IfOk};
ghost use Rattle.dcp_pft.specs.Limits.{most_fragments};
ghost use Rattle.dcp_pft.specs.Carrying.{CarryFits};
ghost use Rattle.drm_links.specs.Sink.{WritesWhole};
ghost use Rattle.drm_links.specs.Calls.{CallsMake};
ghost use Rattle.dcp_sender.specs.CarriesText.{CarriesText, is_too_long};
ghost use Rattle.dcp_sender.specs.OverLinks.{is_large, over_each, SendsPacket};

use crate::{CutPacket, Outlets};
use dcp_pft::{Carry, cut_for, most_packet};
use drm_bits::NoMemory;
use drm_links::{Sink, WriteFault, write_all};
use std::alloc::Global;
use std::marker::Model;

/// Writes packets under a carry, or sends them. All its memory is taken where it is made.
#[derive(Drop)]
pub struct PacketSender {
    carry: Carry,
    datagrams: CutPacket,
}

impl Model for PacketSender {
    ghost use Rattle.dcp_pft.specs.declared.carry.Carry.{Carry};
    ghost use Rattle.dcp_pft.specs.Carrying.{CarryFits};

    ghost Value = { Carry };

    ghost view = { λ s. s.carry };

    ghost invariant = { λ s. CarryFits s.carry };
}

impl PacketSender {
    /// A sender under this carry.
    pub fn make(alloc: Global, carry: Carry) -> Result<PacketSender, NoMemory>
        requires { CarryFits carry }
        ensures { IfOk result (λ sender. sender ≡ carry) }
    {
        let datagrams = CutPacket::make(alloc)?;
        Ok(PacketSender { carry, datagrams })
    }

    /// Whether a packet of so many bytes is too long to be written: one that is carried whole never is.
    pub fn is_too_long(&self, len: usize) -> bool
        ensures { result ≡ is_too_long self.now len }
    {
        match self.carry {
            Carry::Plain => false,
            Carry::Pft { .. } => len > most_packet(self.carry),
        }
    }

    /// Writes the datagrams that carry a packet with this sequence number, one after another.
    pub fn write<O: Sink>(&mut self, seq: u16, packet: &[u8], out: &mut O) -> Result<(), WriteFault>
        requires at_least_one { 1 ≤ length packet.now }
        requires in_range { is_too_long self.old (length packet.now) ≡ false }
        ensures written { (text : List ℕ) × CarriesText self.old seq packet.now text
            × WritesWhole result (O.known out.old) (O.known out.new) text }
        ensures carry { self.new ≡ self.old }
    {
        match self.carry {
            Carry::Plain => write_all(out, packet),
            Carry::Pft { .. } => {
                let cut = cut_for(self.carry, packet.len());
                self.datagrams.fill(packet, cut, seq);
                write_all(out, self.datagrams.bytes())
            }
        }
    }

    /// Whether a packet of so many bytes is too long to be sent: one that is carried whole has a limit too.
    pub fn is_large(&self, len: usize) -> bool
        ensures { result ≡ is_large self.now len }
    {
        len > most_packet(self.carry)
    }

    /// Sends the datagrams of a packet with this sequence number over each link that hasn't failed, all over one before the first over
    /// the next, and gives their number. The packet is cut once.
    pub fn send<O: Outlets>(&mut self, seq: u16, packet: &[u8], outlets: &mut O) -> u64
        requires at_least_one { 1 ≤ length packet.now }
        requires in_range { is_large self.old (length packet.now) ≡ false }
        ensures made { SendsPacket self.old seq packet.now result (O.up outlets.old) (O.up outlets.new) (λ events. O.happened events outlets.old outlets.new) }
        ensures same_count { length (O.up outlets.new) ≡ length (O.up outlets.old) }
        ensures within_limit { result ≤ most_fragments }
        ensures carry { self.new ≡ self.old }
    {
        let cut = cut_for(self.carry, packet.len());
        self.datagrams.fill(packet, cut, seq);
        send_each(&self.datagrams, outlets);
        u64::from(self.datagrams.count())
    }
}

// Sends them over each link.
fn send_each<O: Outlets>(datagrams: &CutPacket, outlets: &mut O)
    ensures made { CallsMake (over_each (length (O.up outlets.old)) datagrams.now) (O.up outlets.old) (O.up outlets.new) (λ events. O.happened events outlets.old outlets.new) }
    ensures same_count { length (O.up outlets.new) ≡ length (O.up outlets.old) }
{
    for k in 0..outlets.len() {
        datagrams.send(k, outlets);
    }
}
