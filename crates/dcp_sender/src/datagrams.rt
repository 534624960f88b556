//! The datagrams of a packet, cut once for all links.

ghost use Rattle.std.specs.Prelude.{ℕ, List, [], ◌≡◌, ◌<◌, ◌≤◌, All, length, slice_index_or, IfOk, IfSome};
ghost use Rattle.std.specs.List.{concat};
ghost use Rattle.dcp_pft.specs.Limits.{longest_packet, most_fragment, most_fragments};
ghost use Rattle.dcp_pft.specs.Cutting.{IsShapeOf};
ghost use Rattle.drm_links.specs.Calls.{sends, CallsMake};
ghost use Rattle.dcp_sender.specs.CarriesText.{most_room};
ghost use Rattle.dcp_sender.specs.Sending.{AreAll};

use crate::Outlets;
use crate::layout::{Layout, MOST_ROOM, part, write_all_fragments, write_whole};
use crate::send::send_datagram;
use dcp_pft::{FRAGMENTS_ROOM, MOST_PARITY, Shape};
use drm_bits::{NoMemory, zeros};
use std::alloc::Global;
use std::marker::Model;

/// The datagrams of one packet, one behind another in a room, however many links they are sent over. All memory is taken where it
/// is made.
#[derive(Drop)]
pub struct CutPacket {
    // Where the parity of a packet is made, and what its fragments carry.
    parity: Vec<u8>,
    coded: Vec<u8>,
    room: Vec<u8>,
    layout: Layout,
}

impl Model for CutPacket {
    ghost use Rattle.std.specs.Prelude.{ℕ, List, ◌≡◌, length};
    ghost use Rattle.dcp_pft.specs.Limits.{fragments_room, most_parity};
    ghost use Rattle.dcp_sender.specs.CarriesText.{most_room};
    ghost use Rattle.dcp_sender.specs.Layout.{laid_out, IsLayout};

    ghost Value = { List (List ℕ) };

    ghost view = { λ s. laid_out s.layout s.room.items };

    ghost invariant = { λ s. IsLayout s.layout
        × (length s.parity.items ≡ most_parity)
        × (length s.coded.items ≡ fragments_room)
        × (length s.room.items ≡ most_room) };
}

impl CutPacket {
    /// None yet.
    pub fn make(alloc: Global) -> Result<CutPacket, NoMemory>
        ensures { IfOk result (λ datagrams. datagrams ≡ []) }
    {
        let parity = zeros(alloc, MOST_PARITY)?;
        let coded = zeros(alloc, FRAGMENTS_ROOM)?;
        let room = zeros(alloc, MOST_ROOM)?;
        Ok(CutPacket {
            parity,
            coded,
            room,
            layout: Layout {
                len: 0,
                count: 0,
                longest: 0,
            },
        })
    }

    /// Cuts a packet with this sequence number, or takes it whole, in place of what was there.
    pub fn fill(&mut self, packet: &[u8], cut: Option<Shape>, seq: u16)
        requires shaped { IfSome cut (IsShapeOf (length packet.now)) }
        requires in_range { length packet.now ≤ longest_packet }
        ensures datagrams { AreAll cut seq packet.now self.new }
        ensures at_least_one { 1 ≤ length self.new }
        ensures in_range { (n : ℕ) → most_fragment ≤ n → length packet.now ≤ n → All (λ d. length d ≤ n) self.new }
    {
        match cut {
            None => self.layout = write_whole(packet, &mut self.room),
            Some(shape) => {
                self.layout = write_all_fragments(
                    packet,
                    &shape,
                    seq,
                    &mut self.parity,
                    &mut self.coded,
                    &mut self.room,
                );
            }
        }
    }

    /// How many there are.
    pub fn count(&self) -> u32
        ensures number { result ≡ length self.now }
        ensures within_limit { result ≤ most_fragments }
    {
        self.layout.count
    }

    /// All of them, one behind another.
    pub fn bytes(&self) -> &[u8]
        ensures bytes { result.now ≡ concat self.now }
        ensures in_range { length result.now ≤ most_room }
    {
        &self.room[..self.layout.len]
    }

    /// The one with this number, from 0.
    pub fn get(&self, i: u32) -> &[u8]
        requires { i < length self.now }
        ensures datagram { (none : List ℕ) → result.now ≡ slice_index_or self.now i none }
        ensures in_range { length result.now ≤ longest_packet }
    {
        let longest = self.layout.longest;
        part(self.bytes(), i as usize * longest, longest)
    }

    /// Sends them over the k-th link, one after another and without a rest, unless it has failed or fails at one of them.
    pub fn send<O: Outlets>(&self, k: usize, outlets: &mut O)
        ensures made { CallsMake (sends k self.now) (O.up outlets.old) (O.up outlets.new) (λ events. O.happened events outlets.old outlets.new) }
        ensures same_count { length (O.up outlets.new) ≡ length (O.up outlets.old) }
    {
        for i in 0..self.count() {
            send_datagram(self.get(i), k, outlets);
        }
    }
}
