//! A data packet, written.

ghost use Rattle.std.specs.Prelude.{◌≡◌, ℕ, ◌+◌, ◌-◌, ◌≤◌, ◌<◌, ◌++◌, length, take, drop, replicate};
ghost use Rattle.drm_data.specs.PacketFields.{head as head_byte, data_field};
ghost use Rattle.drm_data.specs.Reading.{packet_of};
ghost use Rattle.drm_data.specs.Writing.{IsWrittenPacket, FitsDataPacket};

use crate::DataPacket;
use drm_bits::{crc16, put_at};

/// Writes a packet with a data field of so many bytes, and answers how many bytes the packet has.
pub(crate) fn write_packet(packet: &DataPacket<'_>, len: usize, into: &mut [u8]) -> usize
    requires at_least_one { 1 ≤ len }
    requires in_range { len ≤ 255 }
    requires fits { FitsDataPacket len (packet_of packet.now) }
    requires room { len + 3 ≤ length into.old }
    ensures end { result ≡ len + 3 }
    ensures packet { IsWrittenPacket len (packet_of packet.now) (take result into.new) }
    ensures behind { drop result into.new ≡ drop result into.old }
{
    let first = head_of(packet, len);
    append(into, 0, &[first]);
    write_field(into, packet.useful, len);
    let check = crc16(&into[..len + 1]);
    append(into, len + 1, &check.to_be_bytes())
}

fn head_of(packet: &DataPacket<'_>, len: usize) -> u8
    requires { FitsDataPacket len (packet_of packet.now) }
    ensures { result ≡ head_byte len (packet_of packet.now) }
{
    let padded = packet.useful.len() < len;
    0x80 * u8::from(packet.first)
        + 0x40 * u8::from(packet.last)
        + 0x10 * packet.id
        + 8 * u8::from(padded)
        + packet.continuity
}

// Writes a data field of so many bytes from byte 1 on.
fn write_field(into: &mut [u8], useful: &[u8], len: usize)
    requires fits { length useful.now ≤ len }
    requires room { len + 1 ≤ length into.old }
    requires in_range { len ≤ 255 }
    ensures field { take (len + 1) into.new
        ≡ take 1 into.old ++ data_field len useful.now (replicate (len - 1 - length useful.now) 0) }
    ensures behind { (m : ℕ) → len + 1 ≤ m → drop m into.new ≡ drop m into.old }
{
    if useful.len() == len {
        append(into, 1, useful);
        return;
    }
    append(into, 1, &[useful.len() as u8]);
    let end = append(into, 2, useful);
    clear(into, end, len + 1);
}

// Writes bytes from a place on, and answers the place behind them.
fn append(into: &mut [u8], at: usize, bytes: &[u8]) -> usize
    requires { at + length bytes.now ≤ length into.old }
    ensures end { result ≡ at + length bytes.now }
    ensures front { take result into.new ≡ take at into.old ++ bytes.now }
    ensures behind { (m : ℕ) → result ≤ m → drop m into.new ≡ drop m into.old }
{
    put_at(into, at, bytes);
    at + bytes.len()
}

// Writes zeros from a place up to another one.
fn clear(into: &mut [u8], from: usize, to: usize)
    requires order { from ≤ to }
    requires room { to ≤ length into.old }
    ensures front { take to into.new ≡ take from into.old ++ replicate (to - from) 0 }
    ensures behind { (m : ℕ) → to ≤ m → drop m into.new ≡ drop m into.old }
{
    into[from..to].fill(0);
}
