//! Bodies, written into bits.

ghost use Rattle.std.specs.Prelude.{◌≡◌, ◌+◌, ◌*◌, ◌≤◌, ◌<◌, ◌^◌, ℕ, length};
ghost use Rattle.drm_bits.specs.Fields.{AllFit, spelled};
ghost use Rattle.drm_bits.specs.Sink.{unwritten};
ghost use Rattle.drm_sdc.specs.Bodies.{body_fields, body_length, kind_of, channel_fields, mode_fields, mode_length, mode_size, count};
ghost use Rattle.drm_sdc.specs.Entity.{BodyFits, EntityFits, entity_fields, entity_size};
ghost use Rattle.drm_bits.specs.Sink.{WroteBits};
ghost use Rattle.drm_sdc.specs.declared.body.Body.TheVariants.{Mux, Label, Freq, When, App, Time, Audio, Next, Language, Raw};

use crate::optional::put_optional;
use crate::put::put_octets;
use crate::write_service::{write_application, write_audio, write_label, write_language};
use crate::write_settings::{write_next, write_time, write_when};
use crate::{Body, Channel15, Channels};
use drm_bits::{BitSink, Octets};

/// The four bits and the bytes of a body.
pub fn write_body(sink: &mut BitSink<'_>, body: &Body)
    requires fits { BodyFits body.now }
    requires room { 4 + 8 * body_length body.now ≤ length (unwritten sink.old) }
    ensures wrote { WroteBits (spelled (body_fields body.now)) sink.old sink.new }
    ensures remaining { length (unwritten sink.new) + (4 + 8 * body_length body.now) ≡ length (unwritten sink.old) }
{
    match body {
        Body::Mux { desc } => desc.write(sink),
        Body::Label { short, spare, text } => write_label(sink, *short, *spare, text),
        Body::Freq {
            sync,
            layer,
            restriction,
            region,
            list,
        } => write_frequencies(sink, *sync, *layer, *restriction, *region, list),
        Body::When {
            id,
            day,
            start,
            duration,
        } => write_when(sink, *id, *day, *start, *duration),
        Body::App {
            short,
            stream,
            packet,
            enhancement,
            domain,
            bytes,
        } => write_application(sink, *short, *stream, *packet, *enhancement, *domain, bytes),
        Body::Time {
            mjd,
            hours,
            minutes,
            extra,
        } => write_time(sink, *mjd, *hours, *minutes, *extra),
        Body::Audio {
            short,
            stream,
            coding,
            sbr,
            mode,
            rate,
            text,
            enhancement,
            coder,
            spare,
            config,
        } => write_audio(
            sink,
            *short,
            *stream,
            *coding,
            *sbr,
            *mode,
            *rate,
            *text,
            *enhancement,
            *coder,
            *spare,
            config,
        ),
        Body::Next {
            enhancement,
            mode,
            occupancy,
            short_depth,
            msc,
            qam4,
            services,
            last,
        } => write_next(
            sink,
            *enhancement,
            *mode,
            *occupancy,
            *short_depth,
            *msc,
            *qam4,
            *services,
            *last,
        ),
        Body::Language {
            short,
            spare,
            language,
            country,
        } => write_language(sink, *short, *spare, *language, *country),
        Body::Raw { nibble, bytes, .. } => write_raw(sink, *nibble, bytes),
    }
}

fn write_frequencies(
    sink: &mut BitSink<'_>,
    sync: bool,
    layer: bool,
    restriction: Option<u8>,
    region: Option<u8>,
    list: &Channels,
)
    requires fits { AllFit (channel_fields list.now) }
    requires room { 4 + 8 * (count restriction + count region + 2 * length list.now) ≤ length (unwritten sink.old) }
    ensures wrote { WroteBits (spelled (body_fields (Freq sync layer restriction region list.now))) sink.old sink.new }
    ensures remaining { length (unwritten sink.new) + (4 + 8 * (count restriction + count region + 2 * length list.now)) ≡ length (unwritten sink.old) }
{
    sink.put_flag(sync);
    sink.put_flag(layer);
    sink.put_flag(restriction.is_some());
    sink.put_flag(region.is_some());
    put_optional(sink, restriction);
    put_optional(sink, region);
    write_channels(sink, list.as_slice());
}

fn write_channels(sink: &mut BitSink<'_>, channels: &[Channel15])
    requires fits { AllFit (channel_fields channels.now) }
    requires room { 16 * length channels.now ≤ length (unwritten sink.old) }
    ensures wrote { WroteBits (spelled (channel_fields channels.now)) sink.old sink.new }
    ensures remaining { length (unwritten sink.new) + 16 * length channels.now ≡ length (unwritten sink.old) }
{
    for channel in channels {
        sink.put_flag(channel.first);
        sink.put_u16(channel.number, 15);
    }
}

fn write_raw(sink: &mut BitSink<'_>, nibble: u8, bytes: &Octets)
    requires fits { nibble < 2 ^ 4 }
    requires room { 4 + 8 * length bytes.now ≤ length (unwritten sink.old) }
    ensures wrote { (kind : ℕ) → WroteBits (spelled (body_fields (Raw kind nibble bytes.now))) sink.old sink.new }
    ensures remaining { length (unwritten sink.new) + (4 + 8 * length bytes.now) ≡ length (unwritten sink.old) }
{
    sink.put_u8(nibble, 4);
    put_octets(sink, bytes);
}
