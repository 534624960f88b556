//! Applications of data services.

ghost use Rattle.std.specs.Prelude.{◌≡◌, ◌≤◌, ◌+◌, ◌*◌, true, ℕ, length, IfOk};
ghost use Rattle.drm_sdc.specs.Reading.{app_from, sync_from, packet_from, in_packets};

use crate::{AppMode, Body};
use drm_bits::{Bits, NoMemory, Octets};
use std::alloc::Global;

pub fn read_application(alloc: Global, bits: &mut Bits<'_>, bytes: &[u8]) -> Result<Body, NoMemory>
    requires bytes { 1 ≤ length bytes.now }
    requires packet { in_packets bits.old ≡ true → 2 ≤ length bytes.now }
    requires bits { length bits.old ≡ 4 + 8 * length bytes.now }
    ensures { IfOk result (λ b. b ≡ app_from bits.old bytes.now) }
{
    let short = bits.take_u8(2);
    let stream = bits.take_u8(2);
    if bits.take_flag() {
        read_packet(alloc, short, stream, bits, bytes)
    } else {
        read_sync(alloc, short, stream, bits, bytes)
    }
}

fn read_sync(
    alloc: Global,
    short: u8,
    stream: u8,
    bits: &mut Bits<'_>,
    bytes: &[u8],
) -> Result<Body, NoMemory>
    requires bytes { 1 ≤ length bytes.now }
    requires bits { 7 ≤ length bits.old }
    ensures { IfOk result (λ b. b ≡ sync_from short stream bits.old bytes.now) }
{
    let packet = AppMode::Sync {
        spare: bits.take_u8(3),
    };
    let enhancement = bits.take_flag();
    let domain = bits.take_u8(3);
    let bytes = Octets::from_slice(alloc, &bytes[1..])?;
    Ok(Body::App {
        short,
        stream,
        packet,
        enhancement,
        domain,
        bytes,
    })
}

fn read_packet(
    alloc: Global,
    short: u8,
    stream: u8,
    bits: &mut Bits<'_>,
    bytes: &[u8],
) -> Result<Body, NoMemory>
    requires bytes { 2 ≤ length bytes.now }
    requires bits { 15 ≤ length bits.old }
    ensures { IfOk result (λ b. b ≡ packet_from short stream bits.old bytes.now) }
{
    let unit = bits.take_flag();
    let pid = bits.take_u8(2);
    let enhancement = bits.take_flag();
    let domain = bits.take_u8(3);
    let length = bits.take_u8(8);
    let bytes = Octets::from_slice(alloc, &bytes[2..])?;
    Ok(Body::App {
        short,
        stream,
        packet: AppMode::Packet { unit, pid, length },
        enhancement,
        domain,
        bytes,
    })
}
