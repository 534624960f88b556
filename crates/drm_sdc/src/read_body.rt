//! One entity, read from its bytes.

ghost use Rattle.std.specs.Prelude.{◌≡◌, ◌≤◌, ◌+◌, ◌*◌, true, length, IfOk};
ghost use Rattle.drm_sdc.specs.Reading.{body_from, entity_from, has_body_length, raw_from, IsWellFormedEntity};

use crate::application::read_application;
use crate::audio::read_audio;
use crate::description::read_description;
use crate::frequencies::read_frequencies;
use crate::service::{read_label, read_language};
use crate::settings::{read_next, read_time, read_when};
use crate::{Body, Entity};
use drm_bits::{Bits, NoMemory, Octets};
use std::alloc::Global;

/// The entity that these bytes are.
pub fn read_entity(alloc: Global, bytes: &[u8]) -> Result<Entity, NoMemory>
    requires sound { IsWellFormedEntity bytes.now }
    requires short { length bytes.now ≤ 129 }
    ensures { IfOk result (λ e. e ≡ entity_from bytes.now) }
{
    let mut bits = Bits::new(bytes, 8 * bytes.len());
    let _length = bits.take_u8(7);
    let version = bits.take_flag();
    let kind = bits.take_u8(4);
    let body = read_body(alloc, kind, &mut bits, &bytes[2..])?;
    Ok(Entity { version, body })
}

fn read_body(alloc: Global, kind: u8, bits: &mut Bits<'_>, bytes: &[u8]) -> Result<Body, NoMemory>
    requires bits { length bits.old ≡ 4 + 8 * length bytes.now }
    requires sound { has_body_length kind bits.old (length bytes.now) ≡ true }
    ensures { IfOk result (λ b. b ≡ body_from kind bits.old bytes.now) }
{
    match kind {
        0 => Ok(read_description(bits, bytes)),
        1 => read_label(alloc, bits, bytes),
        3 => read_frequencies(alloc, bits, bytes),
        4 => Ok(read_when(bits)),
        5 => read_application(alloc, bits, bytes),
        8 => Ok(read_time(bits, bytes)),
        9 => read_audio(alloc, bits, bytes),
        10 => Ok(read_next(bits)),
        12 => Ok(read_language(bits)),
        _ => read_raw(alloc, kind, bits, bytes),
    }
}

fn read_raw(alloc: Global, kind: u8, bits: &mut Bits<'_>, bytes: &[u8]) -> Result<Body, NoMemory>
    requires { 4 ≤ length bits.old }
    ensures { IfOk result (λ b. b ≡ raw_from kind bits.old bytes.now) }
{
    let nibble = bits.take_u8(4);
    let bytes = Octets::from_slice(alloc, bytes)?;
    Ok(Body::Raw {
        kind,
        nibble,
        bytes,
    })
}
