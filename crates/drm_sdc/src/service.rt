//! Labels and languages of services.

ghost use Rattle.std.specs.Prelude.{◌≡◌, ◌≤◌, length, IfOk};
ghost use Rattle.drm_sdc.specs.Reading.{label_from, language_from};

use crate::Body;
use drm_bits::{Bits, NoMemory, Octets};
use std::alloc::Global;

pub fn read_label(alloc: Global, bits: &mut Bits<'_>, bytes: &[u8]) -> Result<Body, NoMemory>
    requires { 4 ≤ length bits.old }
    ensures { IfOk result (λ b. b ≡ label_from bits.old bytes.now) }
{
    let short = bits.take_u8(2);
    let spare = bits.take_u8(2);
    let text = Octets::from_slice(alloc, bytes)?;
    Ok(Body::Label { short, spare, text })
}

pub fn read_language(bits: &mut Bits<'_>) -> Body
    requires { 44 ≤ length bits.old }
    ensures { result ≡ language_from bits.old }
{
    Body::Language {
        short: bits.take_u8(2),
        spare: bits.take_u8(2),
        language: bits.take_u32(24),
        country: bits.take_u16(16),
    }
}
