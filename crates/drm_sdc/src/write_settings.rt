//! Times, schedules and the channel parameters of the next configuration, written into bits.

ghost use Rattle.std.specs.Prelude.{◌≡◌, ◌+◌, ◌*◌, ◌≤◌, length};
ghost use Rattle.drm_bits.specs.Fields.{AllFit, spelled};
ghost use Rattle.drm_bits.specs.Sink.{unwritten};
ghost use Rattle.drm_sdc.specs.Bodies.{body_fields, count};
ghost use Rattle.drm_bits.specs.Sink.{WroteBits};
ghost use Rattle.drm_sdc.specs.declared.body.Body.TheVariants.{When, Time, Next};

use crate::optional::put_optional;
use drm_bits::BitSink;

pub fn write_when(sink: &mut BitSink<'_>, id: u8, day: u8, start: u16, duration: u16)
    requires fits { AllFit (body_fields (When id day start duration)) }
    requires room { 36 ≤ length (unwritten sink.old) }
    ensures wrote { WroteBits (spelled (body_fields (When id day start duration))) sink.old sink.new }
    ensures remaining { length (unwritten sink.new) + 36 ≡ length (unwritten sink.old) }
{
    sink.put_u8(id, 4);
    sink.put_u8(day, 7);
    sink.put_u16(start, 11);
    sink.put_u16(duration, 14);
}

pub fn write_time(sink: &mut BitSink<'_>, mjd: u32, hours: u8, minutes: u8, extra: Option<u8>)
    requires fits { AllFit (body_fields (Time mjd hours minutes extra)) }
    requires room { 28 + 8 * count extra ≤ length (unwritten sink.old) }
    ensures wrote { WroteBits (spelled (body_fields (Time mjd hours minutes extra))) sink.old sink.new }
    ensures remaining { length (unwritten sink.new) + (28 + 8 * count extra) ≡ length (unwritten sink.old) }
{
    sink.put_u32(mjd, 17);
    sink.put_u8(hours, 5);
    sink.put_u8(minutes, 6);
    put_optional(sink, extra);
}

pub fn write_next(
    sink: &mut BitSink<'_>,
    enhancement: bool,
    mode: u8,
    occupancy: u8,
    short_depth: bool,
    msc: u8,
    qam4: bool,
    services: u8,
    last: u8,
)
    requires fits { AllFit (body_fields (Next enhancement mode occupancy short_depth msc qam4 services last)) }
    requires room { 20 ≤ length (unwritten sink.old) }
    ensures wrote { WroteBits (spelled (body_fields (Next enhancement mode occupancy short_depth msc qam4 services last))) sink.old sink.new }
    ensures remaining { length (unwritten sink.new) + 20 ≡ length (unwritten sink.old) }
{
    sink.put_flag(enhancement);
    sink.put_u8(mode, 2);
    sink.put_u8(occupancy, 4);
    sink.put_flag(short_depth);
    sink.put_u8(msc, 2);
    sink.put_flag(qam4);
    sink.put_u8(services, 4);
    sink.put_u8(last, 5);
}
