//! The coding of audio services.

ghost use Rattle.std.specs.Prelude.{◌≡◌, ◌≤◌, length, IfOk};
ghost use Rattle.drm_sdc.specs.Reading.{audio_from};

use crate::Body;
use drm_bits::{Bits, NoMemory, Octets};
use std::alloc::Global;

pub fn read_audio(alloc: Global, bits: &mut Bits<'_>, bytes: &[u8]) -> Result<Body, NoMemory>
    requires bytes { 2 ≤ length bytes.now }
    requires bits { 20 ≤ length bits.old }
    ensures { IfOk result (λ b. b ≡ audio_from bits.old bytes.now) }
{
    let config = Octets::from_slice(alloc, &bytes[2..])?;
    Ok(Body::Audio {
        short: bits.take_u8(2),
        stream: bits.take_u8(2),
        coding: bits.take_u8(2),
        sbr: bits.take_flag(),
        mode: bits.take_u8(2),
        rate: bits.take_u8(3),
        text: bits.take_flag(),
        enhancement: bits.take_flag(),
        coder: bits.take_u8(5),
        spare: bits.take_flag(),
        config,
    })
}
