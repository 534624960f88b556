//! Fragments, written.

ghost use Rattle.std.specs.Prelude.{◌≡◌, ◌+◌, ◌^◌, ◌<◌, ◌≤◌, ◌++◌, ◌∷◌, [], ℕ, List, length, take, drop, Some, None};
ghost use Rattle.std.specs.Int.{w16, to_be_bytes};
ghost use Rattle.drm_bits.specs.Bits.{IsBytes};
ghost use Rattle.dcp_pft.specs.Limits.{most_fragment};
ghost use Rattle.dcp_pft.specs.Cutting.{IsShapeOf, chunks_of};
ghost use Rattle.dcp_pft.specs.Carrying.{fragment_size};
ghost use Rattle.dcp_pft.specs.Coding.{IsParityOf};
ghost use Rattle.dcp_pft.specs.Head.{SpellsHead, IsFragmentOf, fragment_of, sync, three_bytes};
ghost use Rattle.dcp_pft.specs.Writing.{PutsHead, WritesFragment};
ghost use Rattle.dcp_pft.specs.Turning.{with_payload};

use crate::interleave::interleave;
use crate::limits::MOST_FRAGMENT;
use crate::parts::part;
use crate::shape::{CODED_HEAD, PLAIN_HEAD, Rs, Shape};
use drm_bits::{crc16, put_at};

/// The first of the two flags before the length of the payload: there is a code. The second, for addresses, is not set.
const CODED: u16 = 0x8000;

/// Writes fragment `index` of the packet with this sequence number to the front, and answers how many bytes it has.
pub fn write_fragment(
    shape: &Shape,
    seq: u16,
    index: u32,
    packet: &[u8],
    parity: &[u8],
    into: &mut [u8; MOST_FRAGMENT],
) -> usize
    requires shape { IsShapeOf (length packet.now) shape.now }
    requires parity { IsParityOf shape.now packet.now parity.now }
    requires index { index < shape.now.count }
    ensures fragment { SpellsHead (fragment_of shape.now seq packet.now parity.now index) (take result into.new) }
    ensures is { IsFragmentOf shape.now seq packet.now index (take result into.new) }
    ensures in_range { result ≤ most_fragment }
    ensures bytes { IsBytes (take result into.new) }
    ensures behind { drop result into.new ≡ drop result into.old }
{
    match shape.rs {
        Some(rs) => write_coded(shape, rs, seq, index, packet, parity, into),
        None => write_plain(shape, seq, index, packet, into),
    }
}

// A fragment with a code.
fn write_coded(
    shape: &Shape,
    rs: Rs,
    seq: u16,
    index: u32,
    packet: &[u8],
    parity: &[u8],
    into: &mut [u8; MOST_FRAGMENT],
) -> usize
    requires shape { IsShapeOf (length packet.now) shape.now }
    requires code { shape.now.rs ≡ Some rs }
    requires parity { IsParityOf shape.now packet.now parity.now }
    ensures { WritesFragment (fragment_of shape.now seq packet.now parity.now index) result into.old into.new }
{
    put_head(&coded_head(seq, index, shape.count, shape.piece, rs), into);
    let end = CODED_HEAD as usize + usize::from(shape.piece);
    interleave(
        packet,
        parity,
        rs.k,
        shape.count,
        index,
        &mut into[CODED_HEAD as usize..end],
    );
    end
}

/// A fragment without a code.
pub(crate) fn write_plain(
    shape: &Shape,
    seq: u16,
    index: u32,
    packet: &[u8],
    into: &mut [u8],
) -> usize
    requires shape { IsShapeOf (length packet.now) shape.now }
    requires code { shape.now.rs ≡ None }
    requires room { shape.now.piece + 14 ≤ length into.old }
    ensures fragment { (parity : List ℕ) → WritesFragment (fragment_of shape.now seq packet.now parity index) result into.old into.new }
    ensures size { result ≡ fragment_size shape.now (length packet.now) index }
{
    let size = usize::from(shape.piece);
    let payload = part(packet, index as usize * size, size);
    put_head(
        &plain_head(seq, index, shape.count, payload.len() as u16),
        into,
    );
    put_at(into, PLAIN_HEAD as usize, payload);
    PLAIN_HEAD as usize + payload.len()
}

/// A fragment with a code and this payload.
pub(crate) fn write_payload(
    shape: &Shape,
    rs: Rs,
    seq: u16,
    index: u32,
    payload: &[u8],
    into: &mut [u8],
) -> usize
    requires piece { length payload.now ≡ shape.now.piece }
    requires within_limit { shape.now.piece + 16 ≤ most_fragment }
    requires room { shape.now.piece + 16 ≤ length into.old }
    ensures fragment { WritesFragment (with_payload shape.now rs seq index payload.now) result into.old into.new }
    ensures size { result ≡ 16 + shape.now.piece }
{
    put_head(&coded_head(seq, index, shape.count, shape.piece, rs), into);
    put_at(into, CODED_HEAD as usize, payload);
    CODED_HEAD as usize + payload.len()
}

// The header with a code, before its check value.
fn coded_head(seq: u16, index: u32, count: u32, payload: u16, rs: Rs) -> [u8; 14]
    requires { payload < 2 ^ 14 }
    ensures { result ≡ sync ++ to_be_bytes w16 seq ++ three_bytes index ++ three_bytes count
        ++ to_be_bytes w16 (32768 + payload) ++ rs.k ∷ rs.z ∷ [] }
{
    let seq = seq.to_be_bytes();
    let index = index.to_be_bytes();
    let count = count.to_be_bytes();
    let length = (CODED + payload).to_be_bytes();
    [
        b'P', b'F', seq[0], seq[1], index[1], index[2], index[3], count[1], count[2], count[3],
        length[0], length[1], rs.k, rs.z,
    ]
}

// The header without a code, before its check value.
fn plain_head(seq: u16, index: u32, count: u32, payload: u16) -> [u8; 12]
    ensures { result ≡ sync ++ to_be_bytes w16 seq ++ three_bytes index ++ three_bytes count ++ to_be_bytes w16 payload }
{
    let seq = seq.to_be_bytes();
    let index = index.to_be_bytes();
    let count = count.to_be_bytes();
    let length = payload.to_be_bytes();
    [
        b'P', b'F', seq[0], seq[1], index[1], index[2], index[3], count[1], count[2], count[3],
        length[0], length[1],
    ]
}

// Writes a header and its check value to the front.
fn put_head(head: &[u8], into: &mut [u8])
    requires { length head.now + 2 ≤ length into.old }
    ensures { PutsHead head.now into.old into.new }
{
    put_at(into, 0, head);
    put_at(into, head.len(), &crc16(head).to_be_bytes());
}
