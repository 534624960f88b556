//! Lists of frequencies in entities.

ghost use Rattle.std.specs.Prelude.{◌≡◌, ◌≤◌, ◌+◌, ◌-◌, ◌*◌, ◌%◌, length, drop, IfOk};
ghost use Rattle.drm_bits.specs.Bits.{front, bit};
ghost use Rattle.drm_sdc.specs.Reading.{freq_from, channels_from, optional_count};
ghost use Rattle.drm_sdc.specs.declared.channels.Channel15.{Channel15};

use crate::optional::take_optional;
use crate::{Body, Channel15, Channels};
use drm_bits::{Bits, NoMemory};
use std::alloc::Global;

pub fn read_frequencies(alloc: Global, bits: &mut Bits<'_>, bytes: &[u8]) -> Result<Body, NoMemory>
    requires bytes { optional_count bits.old ≤ length bytes.now }
    requires even { (length bytes.now - optional_count bits.old) % 2 ≡ 0 }
    requires bits { length bits.old ≡ 4 + 8 * length bytes.now }
    ensures { IfOk result (λ b. b ≡ freq_from bits.old bytes.now) }
{
    let sync = bits.take_flag();
    let layer = bits.take_flag();
    let has_restriction = bits.take_flag();
    let has_region = bits.take_flag();
    let restriction = take_optional(bits, has_restriction);
    let region = take_optional(bits, has_region);
    let optional_count = usize::from(has_restriction) + usize::from(has_region);
    let list = read_channels(alloc, bits, (bytes.len() - optional_count) / 2)?;
    Ok(Body::Freq {
        sync,
        layer,
        restriction,
        region,
        list,
    })
}

fn read_channels(alloc: Global, bits: &mut Bits<'_>, count: usize) -> Result<Channels, NoMemory>
    requires { 16 * count ≤ length bits.old }
    ensures { IfOk result (λ list. list ≡ channels_from count bits.old) }
{
    let mut list = Channels::new(alloc);
    for _ in 0..count {
        list.push(read_channel(bits))?;
    }
    Ok(list)
}

fn read_channel(bits: &mut Bits<'_>) -> Channel15
    requires { 16 ≤ length bits.old }
    ensures channel { result ≡ record { first = bit bits.old; number = front 15 (drop 1 bits.old) } }
    ensures rest { bits.new ≡ drop 15 (drop 1 bits.old) }
    ensures remaining { length bits.new + 16 ≡ length bits.old }
{
    Channel15 {
        first: bits.take_flag(),
        number: bits.take_u16(15),
    }
}
