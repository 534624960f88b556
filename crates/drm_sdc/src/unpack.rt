//! The parts of a block, whose bytes don't stand at the places of bytes in its first form.

ghost use Rattle.std.specs.Prelude.{◌≡◌, ◌+◌, ◌*◌, ◌/◌, ◌%◌, ◌<◌, ◌≤◌, ◌^◌, ◌∷◌, ◌++◌, ◌⊎◌, ℕ, List, Bool, length, take, drop, slice_index, IfOk, IfErr, IfSome, IfNone};
ghost use Rattle.drm_bits.specs.Bits.{bits_of, digits};
ghost use Rattle.drm_bits.specs.Crc.{IsCheck, crc16_polynomial};
ghost use Rattle.drm_sdc.specs.Block.{IsFramed, IsBlockChecked, IsBlockOpen, IsBlockLength, IsBlockFault};

use crate::SdcFault;
use drm_bits::{Bits, CrcRun};

/// How many bytes the data field has.
pub fn block_room(value: &[u8], bits: u32) -> Result<usize, SdcFault>
    requires { length value.now ≡ (bits + 7) / 8 }
    ensures open { IfOk result (λ d. IsBlockOpen d (take bits (bits_of value.now))) }
    ensures fault { IfErr result (IsBlockFault (take bits (bits_of value.now))) }
{
    let Some(room) = room_of(bits) else {
        return Err(SdcFault::BlockLength { bits });
    };
    if bits % 8 == 0 {
        let mut all = Bits::new(value, bits as usize);
        let front = all.take_u8(4);
        if front != 0 {
            return Err(SdcFault::Front { bits: front });
        }
    }
    Ok(room)
}

fn room_of(bits: u32) -> Option<usize>
    ensures found { IfSome result (λ d. (d ≤ 1023) × ((bits ≡ 8 * d + 20) ⊎ (bits ≡ 8 * d + 24))) }
    ensures none { IfNone result (¬ IsBlockLength bits) }
{
    if bits < 20 || bits % 4 != 0 || (bits - 20) / 8 > 1023 {
        return None;
    }
    Some(((bits - 20) / 8) as usize)
}

/// Writes the data field, and gives the index.
pub fn unpack_block(value: &[u8], bits: u32, field: &mut [u8]) -> Result<u8, SdcFault>
    requires length { length value.now ≡ (bits + 7) / 8 }
    requires open { IsBlockOpen (length field.old) (take bits (bits_of value.now)) }
    ensures parts { IfOk result (λ afs. (check : List Bool) × IsFramed afs field.new check (take bits (bits_of value.now)) × IsBlockChecked afs field.new check) }
    ensures fault { IfErr result (IsBlockFault (take bits (bits_of value.now))) }
{
    let mut rest = behind_front(value, bits);
    let afs = rest.take_u8(4);
    unpack(&mut rest, field);
    let stands = rest.take_u16(16);
    let computed = check_value(afs, field);
    if stands != computed {
        return Err(SdcFault::Crc { stands, computed });
    }
    Ok(afs)
}

fn behind_front(value: &[u8], bits: u32) -> Bits<'_>
    requires length { length value.now ≡ (bits + 7) / 8 }
    requires at_least_one { 4 ≤ bits }
    ensures second { bits % 8 ≡ 0 → result ≡ drop 4 (take bits (bits_of value.now)) }
    ensures first { ¬ (bits % 8 ≡ 0) → result ≡ take bits (bits_of value.now) }
{
    let mut rest = Bits::new(value, bits as usize);
    if bits % 8 == 0 {
        let _front = rest.take_u8(4);
    }
    rest
}

// Takes as many bytes as the slice has.
fn unpack(bits: &mut Bits<'_>, bytes: &mut [u8])
    requires { 8 * length bytes.old ≤ length bits.old }
    ensures bytes { bits.old ≡ bits_of bytes.new ++ bits.new }
    ensures octets { (i : ℕ) → slice_index bytes.new i < 2 ^ 8 }
{
    for byte in bytes.iter_mut() {
        *byte = bits.take_u8(8);
    }
}

/// The check value of the index, as a byte, and the data field.
pub fn check_value(afs: u8, field: &[u8]) -> u16
    ensures check { IsCheck crc16_polynomial (bits_of (afs ∷ field.now)) (digits 16 result) }
    ensures only { (n : ℕ) → n < 2 ^ 16 → IsCheck crc16_polynomial (bits_of (afs ∷ field.now)) (digits 16 n) → n ≡ result }
{
    let mut run = CrcRun::start().byte(afs);
    for byte in field {
        run = run.byte(*byte);
    }
    run.value()
}
