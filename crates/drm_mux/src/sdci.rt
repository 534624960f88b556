//! The value of an `sdci` item: four zero bits, both protections, and the two parts of each stream.

ghost use Rattle.std.specs.Prelude.{◌≡◌, ◌+◌, ◌*◌, ◌/◌, ◌≤◌, length, take, drop, IsOk, OnOk, IfOk, IfErr, IfSome, IfNone};
ghost use Rattle.drm_bits.specs.Description.{FitsWidths, IsWritable};
ghost use Rattle.drm_bits.specs.declared.description.MuxDesc.{MuxDesc};
ghost use Rattle.drm_mux.specs.Sdci.{IsSdci, IsSdciLength, HasZeroFront};
ghost use Rattle.drm_mux.specs.Faults.{IsSdciFault};

use crate::MuxFault;
use drm_bits::{BitSink, Bits, MuxDesc};

/// Reads the description from the first `bits` bits of `value`, which has as many bytes as these need.
/// Example: `read_sdci(&[0x01, 0x00, 0x20, 0x01, 0x00, 0x10, 0x02], 56)` has two streams, with the parts 2 and 1, and 1 and 2.
pub fn read_sdci(value: &[u8], bits: u32) -> Result<MuxDesc, MuxFault>
    requires { length value.now ≡ (bits + 7) / 8 }
    ensures read { IfOk result (λ d. IsSdci d value.now) }
    ensures fits { IfOk result FitsWidths }
    ensures whole { OnOk result (bits ≡ 8 * length value.now) }
    // There is no other description.
    ensures only { (d : MuxDesc) → IsSdci d value.now → bits ≡ 8 * length value.now
        → result ≡ Ok d }

    // Each answer comes exactly where it is due.
    ensures length { ¬ IsSdciLength bits → result ≡ Err (MuxFault.SdciLength bits) }
    ensures front { IsSdciLength bits → ¬ HasZeroFront value.now
        → result ≡ Err MuxFault.SdciFront }
    ensures accepted { IsSdciLength bits → HasZeroFront value.now → IsOk result }
    ensures fault { IfErr result (IsSdciFault bits value.now) }
{
    let Some(count) = described_streams(bits) else {
        return Err(MuxFault::SdciLength { bits });
    };
    let mut bits = Bits::new(value, 8 * value.len());
    if bits.take_u8(4) != 0 {
        return Err(MuxFault::SdciFront);
    }
    Ok(MuxDesc::read(&mut bits, count))
}

// How many streams so many bits describe.
fn described_streams(bits: u32) -> Option<u8>
    ensures at_least_one { IfSome result (λ n. (n ≤ 4) × (bits ≡ 8 + 24 * n)) }
    ensures none { IfNone result (¬ IsSdciLength bits) }
{
    match bits {
        8 => Some(0),
        32 => Some(1),
        56 => Some(2),
        80 => Some(3),
        104 => Some(4),
        _ => None,
    }
}

/// Writes the description at the front of `into`, and gives the number of bytes written. It describes at most four streams,
/// and each number fits its width.
pub fn write_sdci(desc: &MuxDesc, into: &mut [u8; 13]) -> usize
    requires { IsWritable desc.now }
    ensures length { result ≡ 1 + 3 * desc.now.count }
    ensures written { IsSdci desc.now (take result into.new) }
    ensures rest { drop result into.new ≡ drop result into.old }
{
    let mut sink = BitSink::new(into);
    sink.put_u8(0, 4);
    desc.write(&mut sink);
    sink.len() / 8
}
