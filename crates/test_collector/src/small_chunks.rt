//! Packets whose chunks have one byte. All bytes of such a chunk with its parity follow from any one of them, so each fragment
//! that has a byte of each chunk brings the packet.

ghost use Rattle.std.specs.Prelude.{◌<◌};

use crate::runs::{gives_next, takes};
use dcp_collect::{Collector, Out, Taken};
use drm_bits::{NoMemory, crc16};
use rs_erase::encode;
use std::alloc::Global;

const PACKET: &[u8] = b"Chunks of one byte, 48 of them, from a packet...";

/// How many fragments a packet has, each with as many bytes of each chunk as any other, or with one byte more of some.
const COUNTS: &[u8] = &[49, 48, 24, 7];

/// The chunks of a packet, each with its parity.
fn coded(alloc: Global) -> Result<Vec<u8>, NoMemory> {
    let mut coded = Vec::new(alloc);
    for byte in PACKET {
        let mut parity = [0; 48];
        encode(&[*byte], &mut parity);
        if coded.push(*byte).is_err() || coded.extend_from_slice(&parity).is_err() {
            return Err(NoMemory);
        }
    }
    Ok(coded)
}

/// One of so many fragments. Its last byte is changed by this one.
fn fragment(
    alloc: Global,
    coded: &[u8],
    index: u8,
    count: u8,
    change: u8,
) -> Result<Vec<u8>, NoMemory>
    requires { 0 < count }
{
    let len = u16::try_from(coded.len() / usize::from(count)).unwrap_or(0);
    let len = (0x8000 | len).to_be_bytes();
    let mut bytes = [
        b'P', b'F', 0, 0, 0, 0, index, 0, 0, count, len[0], len[1], 1, 0, 0, 0,
    ];
    let check = crc16(&bytes[..14]).to_be_bytes();
    bytes[14] = check[0];
    bytes[15] = check[1];
    let mut fragment = bytes.to_vec(alloc)?;
    for (place, byte) in coded.iter().enumerate() {
        if place % usize::from(count) == usize::from(index) && fragment.push(*byte).is_err() {
            return Err(NoMemory);
        }
    }
    if let Some(last) = fragment.last_mut() {
        *last ^= change;
    }
    Ok(fragment)
}

/// Whether this is given once a fragment came.
fn gives(alloc: Global, fragment: &[u8], out: Out<'_>) -> bool {
    let Ok(mut collector) = Collector::make(alloc, 1, 32_767, Some(0)) else {
        return false;
    };
    takes(&mut collector, fragment, Taken::Kept) && gives_next(&mut collector, Some(out))
}

/// Whether the fragment gives it, with its last byte changed by this one.
fn brings(alloc: Global, index: u8, count: u8, change: u8, out: Out<'_>) -> bool
    requires { 0 < count }
{
    let Ok(coded) = coded(alloc) else {
        return false;
    };
    match fragment(alloc, &coded, index, count, change) {
        Ok(fragment) => gives(alloc, &fragment, out),
        Err(NoMemory) => false,
    }
}

/// Whether each of so many fragments brings the packet.
fn each_brings_it(alloc: Global, count: u8) -> bool {
    let packet = Out::Packet {
        index: 0,
        bytes: PACKET,
        whole: false,
    };
    (0..count).all(|index| brings(alloc, index, count, 0, packet))
}

#[test]
fn any_fragment_brings_the_packet(rt: HostRuntime) {
    assert!(rt;
        COUNTS
            .iter()
            .all(|count| each_brings_it(rt.alloc(), *count))
    );
}

#[test]
fn a_wrong_byte_is_noticed(rt: HostRuntime) {
    let damaged = Out::Damaged { index: 0 };
    assert!(rt; brings(rt.alloc(), 6, 7, 1, damaged));
}
