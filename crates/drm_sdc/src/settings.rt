//! Times, schedules and the channel parameters of the next configuration.

ghost use Rattle.std.specs.Prelude.{◌≡◌, ◌≤◌, ◌+◌, ◌*◌, length};
ghost use Rattle.drm_sdc.specs.Reading.{when_from, time_from, next_from};

use crate::Body;
use crate::optional::take_optional;
use drm_bits::Bits;

pub fn read_when(bits: &mut Bits<'_>) -> Body
    requires { 36 ≤ length bits.old }
    ensures { result ≡ when_from bits.old }
{
    Body::When {
        id: bits.take_u8(4),
        day: bits.take_u8(7),
        start: bits.take_u16(11),
        duration: bits.take_u16(14),
    }
}

pub fn read_time(bits: &mut Bits<'_>, bytes: &[u8]) -> Body
    requires bytes { 3 ≤ length bytes.now }
    requires bits { length bits.old ≡ 4 + 8 * length bytes.now }
    ensures { result ≡ time_from bits.old bytes.now }
{
    let mjd = bits.take_u32(17);
    let hours = bits.take_u8(5);
    let minutes = bits.take_u8(6);
    let extra = take_optional(bits, bytes.len() == 4);
    Body::Time {
        mjd,
        hours,
        minutes,
        extra,
    }
}

pub fn read_next(bits: &mut Bits<'_>) -> Body
    requires { 20 ≤ length bits.old }
    ensures { result ≡ next_from bits.old }
{
    Body::Next {
        enhancement: bits.take_flag(),
        mode: bits.take_u8(2),
        occupancy: bits.take_u8(4),
        short_depth: bits.take_flag(),
        msc: bits.take_u8(2),
        qam4: bits.take_flag(),
        services: bits.take_u8(4),
        last: bits.take_u8(5),
    }
}
