//! All fragments of a packet, written at once.

ghost use Rattle.std.specs.Prelude.{◌≡◌, ◌+◌, ◌*◌, ◌-◌, ◌%◌, ◌^◌, ◌<◌, ◌≤◌, ℕ, List, length, take, drop, Some, None};
ghost use Rattle.dcp_pft.specs.Limits.{most_carried, most_fragment, fragments_room};
ghost use Rattle.dcp_pft.specs.Cutting.{IsShapeOf};
ghost use Rattle.dcp_pft.specs.Carrying.{fragment_size};
ghost use Rattle.dcp_pft.specs.Coding.{IsParityOf};
ghost use Rattle.dcp_pft.specs.Head.{SpellsHead, IsFragmentOf, fragment_of};
ghost use Rattle.dcp_pft.specs.Writing.{fragment_at};
ghost use Rattle.dcp_pft.specs.Turning.{HoldsColumns, laid_fragment};

use crate::lay_out::lay_out;
use crate::limits::{MOST_CARRIED, MOST_FRAGMENT};
use crate::shape::{CODED_HEAD, PLAIN_HEAD, Rs, Shape};
use crate::turn::{COLUMNS, take_columns};
use crate::write::{write_payload, write_plain};

// Room for the coded bytes of a packet, and a row more: what is read past the last byte isn't used.
const CODED_ROOM: usize = MOST_CARRIED as usize + COLUMNS;

// Room for columns of the longest payload.
const COLUMNS_ROOM: usize = COLUMNS * (MOST_FRAGMENT - CODED_HEAD as usize);

/// The bytes of the room in which `write_fragments` makes what fragments carry.
pub const FRAGMENTS_ROOM: usize = CODED_ROOM + 2 * COLUMNS_ROOM;

/// Writes all fragments of the packet with this sequence number, one after another, and answers how many bytes they have. What was in the
/// room is lost.
pub fn write_fragments(
    shape: &Shape,
    seq: u16,
    packet: &[u8],
    parity: &[u8],
    room: &mut [u8],
    into: &mut [u8],
) -> usize
    requires shape { IsShapeOf (length packet.now) shape.now }
    requires parity { IsParityOf shape.now packet.now parity.now }
    requires room { length room.old ≡ fragments_room }
    requires into { shape.now.count * (16 + shape.now.piece) ≤ length into.old }
    ensures fragments { (i : ℕ) → i < shape.now.count
        → IsFragmentOf shape.now seq packet.now i (fragment_at shape.now (length packet.now) i into.new) }
    ensures end { result ≡ (shape.now.count - 1) * fragment_size shape.now (length packet.now) 0
        + fragment_size shape.now (length packet.now) (shape.now.count - 1) }
    ensures same_room { length room.new ≡ length room.old }
    ensures same_length { length into.new ≡ length into.old }
{
    match shape.rs {
        Some(rs) => write_coded_fragments(shape, rs, seq, packet, parity, room, into),
        None => write_plain_fragments(shape, seq, packet, into),
    }
}

// Those without a code.
fn write_plain_fragments(shape: &Shape, seq: u16, packet: &[u8], into: &mut [u8]) -> usize
    requires shape { IsShapeOf (length packet.now) shape.now }
    requires code { shape.now.rs ≡ None }
    requires into { shape.now.count * (16 + shape.now.piece) ≤ length into.old }
    ensures fragments { (parity : List ℕ) (i : ℕ) → i < shape.now.count
        → SpellsHead (fragment_of shape.now seq packet.now parity i) (fragment_at shape.now (length packet.now) i into.new) }
    ensures end { result ≡ 14 * shape.now.count + length packet.now }
    ensures same_length { length into.new ≡ length into.old }
{
    let longest = PLAIN_HEAD as usize + usize::from(shape.piece);
    for i in 0..shape.count {
        write_plain_at(shape, seq, i, packet, into, i as usize * longest);
    }
    PLAIN_HEAD as usize * shape.count as usize + packet.len()
}

// One of them, at its place.
fn write_plain_at(shape: &Shape, seq: u16, index: u32, packet: &[u8], into: &mut [u8], at: usize)
    requires shape { IsShapeOf (length packet.now) shape.now }
    requires code { shape.now.rs ≡ None }
    requires room { at + (14 + shape.now.piece) ≤ length into.old }
    ensures fragment { (parity : List ℕ) → SpellsHead (fragment_of shape.now seq packet.now parity index)
        (take (fragment_size shape.now (length packet.now) index) (drop at into.new)) }
    ensures before { take at into.new ≡ take at into.old }
    ensures same_length { length into.new ≡ length into.old }
{
    write_plain(shape, seq, index, packet, &mut into[at..]);
}

// Those with a code.
fn write_coded_fragments(
    shape: &Shape,
    rs: Rs,
    seq: u16,
    packet: &[u8],
    parity: &[u8],
    room: &mut [u8],
    into: &mut [u8],
) -> usize
    requires shape { IsShapeOf (length packet.now) shape.now }
    requires code { shape.now.rs ≡ Some rs }
    requires parity { IsParityOf shape.now packet.now parity.now }
    requires room { length room.old ≡ fragments_room }
    requires into { shape.now.count * (16 + shape.now.piece) ≤ length into.old }
    ensures fragments { (i : ℕ) → i < shape.now.count → SpellsHead (fragment_of shape.now seq packet.now parity.now i)
        (take (16 + shape.now.piece) (drop (i * (16 + shape.now.piece)) into.new)) }
    ensures end { result ≡ shape.now.count * (16 + shape.now.piece) }
    ensures same_room { length room.new ≡ length room.old }
    ensures same_length { length into.new ≡ length into.old }
{
    let count = shape.count as usize;
    let piece = usize::from(shape.piece);
    let laid = count * piece + COLUMNS;
    let (coded, columns) = room.split_at_mut(CODED_ROOM);
    let (columns, other) = columns.split_at_mut(COLUMNS_ROOM);
    lay_out(packet, parity, rs.k, &mut coded[..laid]);
    write_laid_out(shape, rs, seq, &coded[..laid], columns, other, into);
    count * (CODED_HEAD as usize + piece)
}

// Those of a packet whose coded bytes are laid out.
fn write_laid_out(
    shape: &Shape,
    rs: Rs,
    seq: u16,
    coded: &[u8],
    columns: &mut [u8],
    other: &mut [u8],
    into: &mut [u8],
)
    requires at_least_one { 0 < shape.now.piece }
    requires piece { 16 + shape.now.piece ≤ most_fragment }
    requires carried { shape.now.count * shape.now.piece ≤ most_carried }
    requires coded { length coded.now ≡ shape.now.count * shape.now.piece + 16 }
    requires columns { length columns.old ≡ 23744 }
    requires other { length other.old ≡ 23744 }
    requires into { shape.now.count * (16 + shape.now.piece) ≤ length into.old }
    ensures fragments { (i : ℕ) → i < shape.now.count → SpellsHead (laid_fragment shape.now rs seq coded.now i)
        (take (16 + shape.now.piece) (drop (i * (16 + shape.now.piece)) into.new)) }
    ensures same_columns { length columns.new ≡ length columns.old }
    ensures same_other { length other.new ≡ length other.old }
    ensures same_length { length into.new ≡ length into.old }
{
    let size = CODED_HEAD as usize + usize::from(shape.piece);
    for i in 0..shape.count {
        make_ready(shape, i, coded, columns, other);
        write_column(shape, rs, seq, i, columns, into, i as usize * size);
    }
}

// Makes the columns of sixteen fragments before the first of them.
fn make_ready(shape: &Shape, i: u32, coded: &[u8], columns: &mut [u8], other: &mut [u8])
    requires index { i < shape.now.count }
    requires at_least_one { 0 < shape.now.piece }
    requires piece { 16 + shape.now.piece ≤ most_fragment }
    requires carried { shape.now.count * shape.now.piece ≤ most_carried }
    requires coded { length coded.now ≡ shape.now.count * shape.now.piece + 16 }
    requires columns { length columns.old ≡ 23744 }
    requires other { length other.old ≡ 23744 }
    requires stand { 0 < i % 16
        → HoldsColumns shape.now.count (i - i % 16) shape.now.piece (shape.now.piece + shape.now.piece % 2) coded.now columns.old }
    ensures stand { HoldsColumns shape.now.count (i - i % 16) shape.now.piece (shape.now.piece + shape.now.piece % 2) coded.now columns.new }
    ensures same_columns { length columns.new ≡ length columns.old }
    ensures same_other { length other.new ≡ length other.old }
{
    if i % COLUMNS as u32 == 0 {
        take_columns(
            coded,
            i as usize,
            shape.count as usize,
            usize::from(shape.piece),
            columns,
            other,
        );
    }
}

// Writes a fragment out of its column, at its place.
fn write_column(shape: &Shape, rs: Rs, seq: u16, i: u32, columns: &[u8], into: &mut [u8], at: usize)
    requires piece { 16 + shape.now.piece ≤ most_fragment }
    requires columns { length columns.now ≡ 23744 }
    requires room { at + (16 + shape.now.piece) ≤ length into.old }
    ensures fragment { (coded : List ℕ)
        → HoldsColumns shape.now.count (i - i % 16) shape.now.piece (shape.now.piece + shape.now.piece % 2) coded columns.now
        → SpellsHead (laid_fragment shape.now rs seq coded i) (take (16 + shape.now.piece) (drop at into.new)) }
    ensures before { take at into.new ≡ take at into.old }
    ensures same_length { length into.new ≡ length into.old }
{
    let piece = usize::from(shape.piece);
    let from = i as usize % COLUMNS * (piece + piece % 2);
    write_payload(
        shape,
        rs,
        seq,
        i,
        &columns[from..from + piece],
        &mut into[at..],
    );
}
