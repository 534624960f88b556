//! Which bodies can be written.

ghost use Rattle.std.specs.Prelude.{◌≡◌, ◌↔◌, ◌+◌, ◌*◌, ◌<◌, ◌^◌, IsTrue, length};
ghost use Rattle.drm_bits.specs.Fields.{AllFit};
ghost use Rattle.drm_sdc.specs.Bodies.{body_length, channel_fields, is_typed, octets, optional, count, mode_size, mode_fields, mode_length};
ghost use Rattle.drm_sdc.specs.Entity.{BodyFits};
ghost use Rattle.drm_sdc.specs.declared.body.AppMode.TheVariants.{Sync, Packet};
ghost use Rattle.drm_sdc.specs.declared.body.Body.TheVariants.{Mux, Label, Freq, When, App, Time, Audio, Next, Language, Raw};

use crate::{AppMode, Body, Channel15, Channels};
use drm_bits::Octets;

pub fn body_fits(body: &Body) -> bool
    ensures { IsTrue result ↔ BodyFits body.now }
{
    match body {
        Body::Mux { desc } => desc.is_description() && desc.fits(),
        Body::Label { short, spare, text } => label_fits(*short, *spare, text),
        Body::Freq {
            restriction,
            region,
            list,
            ..
        } => frequencies_fit(*restriction, *region, list),
        Body::When {
            id,
            day,
            start,
            duration,
        } => *id < 1 << 4 && *day < 1 << 7 && *start < 1 << 11 && *duration < 1 << 14,
        Body::App {
            short,
            stream,
            packet,
            domain,
            bytes,
            ..
        } => *short < 4 && *stream < 4 && *domain < 8 && mode_fits(*packet, bytes),
        Body::Time {
            mjd,
            hours,
            minutes,
            extra,
        } => time_fits(*mjd, *hours, *minutes, *extra),
        Body::Audio {
            short,
            stream,
            coding,
            mode,
            rate,
            coder,
            config,
            ..
        } => {
            *short < 4
                && *stream < 4
                && *coding < 4
                && *mode < 4
                && *rate < 8
                && *coder < 1 << 5
                && octets_fit(config, 2)
        }
        Body::Next {
            mode,
            occupancy,
            msc,
            services,
            last,
            ..
        } => *mode < 4 && *occupancy < 16 && *msc < 4 && *services < 16 && *last < 1 << 5,
        Body::Language {
            short,
            spare,
            language,
            country,
        } => language_fits(*short, *spare, *language, *country),
        Body::Raw {
            kind,
            nibble,
            bytes,
        } => *kind < 16 && !has_own_body(*kind) && *nibble < 16 && octets_fit(bytes, 0),
    }
}

// Whether so many bytes and these are at most 127.
fn octets_fit(bytes: &Octets, before: usize) -> bool
    requires { before < 3 }
    ensures length { IsTrue result ↔ (before + length bytes.now < 2 ^ 7) }
    ensures octets { AllFit (octets bytes.now) }
{
    length_fits(bytes.as_slice(), before)
}

fn length_fits(bytes: &[u8], before: usize) -> bool
    requires { before < 3 }
    ensures length { IsTrue result ↔ (before + length bytes.now < 2 ^ 7) }
    ensures octets { AllFit (octets bytes.now) }
{
    before + bytes.len() < 128
}

fn time_fits(mjd: u32, hours: u8, minutes: u8, extra: Option<u8>) -> bool
    ensures { IsTrue result ↔ BodyFits (Time mjd hours minutes extra) }
{
    let _byte = extra;
    mjd < 1 << 17 && hours < 1 << 5 && minutes < 1 << 6
}

fn language_fits(short: u8, spare: u8, language: u32, country: u16) -> bool
    ensures { IsTrue result ↔ BodyFits (Language short spare language country) }
{
    let _any = country;
    short < 4 && spare < 4 && language < 1 << 24
}

fn label_fits(short: u8, spare: u8, text: &Octets) -> bool
    ensures { IsTrue result ↔ BodyFits (Label short spare text.now) }
{
    short < 4 && spare < 4 && octets_fit(text, 0) && text.as_text().is_some()
}

fn mode_fits(mode: AppMode, bytes: &Octets) -> bool
    ensures right { IsTrue result ↔ ((mode_size mode + length bytes.now < 2 ^ 7) × AllFit (mode_fields mode)) }
    ensures length { AllFit (mode_length mode) }
    ensures octets { AllFit (octets bytes.now) }
{
    match mode {
        AppMode::Sync { spare } => octets_fit(bytes, 1) && spare < 8,
        AppMode::Packet { pid, .. } => octets_fit(bytes, 2) && pid < 4,
    }
}

fn has_own_body(kind: u8) -> bool
    ensures { result ≡ is_typed kind }
{
    matches!(kind, 0 | 1 | 3 | 4 | 5 | 8 | 9 | 10 | 12)
}

fn frequencies_fit(restriction: Option<u8>, region: Option<u8>, list: &Channels) -> bool
    ensures fit { AllFit (optional restriction) × AllFit (optional region) }
    ensures right { IsTrue result ↔ ((count restriction + count region + 2 * length list.now < 2 ^ 7) × AllFit (channel_fields list.now)) }
{
    let before = usize::from(restriction.is_some()) + usize::from(region.is_some());
    let channels = list.as_slice();
    channels.len() < 64 && before + 2 * channels.len() < 128 && channels_fit(channels)
}

fn channels_fit(channels: &[Channel15]) -> bool
    ensures { IsTrue result ↔ AllFit (channel_fields channels.now) }
{
    for channel in channels {
        if channel.number >= 1 << 15 {
            return false;
        }
    }
    true
}
