//! Datagrams one behind another in a room.

ghost use Rattle.std.specs.Prelude.{ℕ, ◌≡◌, ◌+◌, ◌<◌, ◌≤◌, ◌^◌, All, length, take, drop, None, Some};
ghost use Rattle.dcp_pft.specs.Limits.{fragments_room, longest_packet, most_fragment, most_parity};
ghost use Rattle.dcp_pft.specs.Cutting.{IsShapeOf};
ghost use Rattle.dcp_sender.specs.CarriesText.{most_room};
ghost use Rattle.dcp_sender.specs.Layout.{laid_out, IsLayout};
ghost use Rattle.dcp_sender.specs.Sending.{AreAll};

use dcp_pft::{
    MOST_CARRIED, MOST_FRAGMENT, MOST_FRAGMENTS, Shape, all_taken, chunks, code, datagram_len,
    write_fragments,
};

// The most bytes of a fragment's header.
const HEAD: usize = 16;

/// The datagrams of a packet have fewer bytes than this, by as many as a fragment may have.
pub const MOST_ROOM: usize = MOST_CARRIED as usize + HEAD * MOST_FRAGMENTS as usize + MOST_FRAGMENT;

/// How datagrams stand at the front of a room: all but the last are as long as the longest.
#[derive(Clone, Copy)]
pub(crate) struct Layout {
    /// The bytes of all of them.
    pub len: usize,
    /// How many they are.
    pub count: u32,
    /// The bytes of the longest.
    pub longest: usize,
}

/// Writes a packet that is carried whole.
pub(crate) fn write_whole(packet: &[u8], into: &mut [u8]) -> Layout
    requires in_range { length packet.now ≤ longest_packet }
    requires room { length into.old ≡ most_room }
    ensures datagrams { AreAll None 0 packet.now (laid_out result into.new) }
    ensures in_range { (n : ℕ) → length packet.now ≤ n → All (λ d. length d ≤ n) (laid_out result into.new) }
    ensures at_least_one { 1 ≤ length (laid_out result into.new) }
    ensures layout { IsLayout result }
    ensures room { length into.new ≡ most_room }
{
    let len = packet.len();
    into[..len].copy_from_slice(packet);
    Layout {
        len,
        count: 1,
        longest: len,
    }
}

/// Writes the fragments of a packet, whose parity is made first. What was in the room for coded bytes is lost.
pub(crate) fn write_all_fragments(
    packet: &[u8],
    shape: &Shape,
    seq: u16,
    parity: &mut [u8],
    coded: &mut [u8],
    into: &mut [u8],
) -> Layout
    requires shaped { IsShapeOf (length packet.now) shape.now }
    requires parity { length parity.old ≡ most_parity }
    requires coded { length coded.old ≡ fragments_room }
    requires room { length into.old ≡ most_room }
    ensures datagrams { AreAll (Some shape.now) seq packet.now (laid_out result into.new) }
    ensures in_range { (n : ℕ) → most_fragment ≤ n → All (λ d. length d ≤ n) (laid_out result into.new) }
    ensures at_least_one { 1 ≤ length (laid_out result into.new) }
    ensures layout { IsLayout result }
    ensures room { length into.new ≡ most_room }
    ensures parity { length parity.new ≡ most_parity }
    ensures coded { length coded.new ≡ fragments_room }
{
    // For its clause alone: what is cut passes no limit of a reader, so it fits the room.
    all_taken();
    let parity = &mut parity[..48 * chunks(shape) as usize];
    code(packet, shape, parity);
    Layout {
        len: write_fragments(shape, seq, packet, parity, coded, into),
        count: shape.count,
        longest: datagram_len(Some(*shape), packet.len(), 0) as usize,
    }
}

/// So many bytes from a place on, or as many as there are.
pub(crate) fn part(bytes: &[u8], at: usize, size: usize) -> &[u8]
    requires { at + size < 2 ^ 64 }
    ensures { result.now ≡ take size (drop at bytes.now) }
{
    let start = at.min(bytes.len());
    let end = (at + size).min(bytes.len());
    &bytes[start..end]
}
