//! Labels, languages, applications and the coding of audio services, written into bits.

ghost use Rattle.std.specs.Prelude.{◌≡◌, ◌+◌, ◌*◌, ◌≤◌, ◌<◌, ◌^◌, ◌++◌, ◌∷◌, length};
ghost use Rattle.drm_bits.specs.Fields.{AllFit, field, flag, spelled};
ghost use Rattle.drm_bits.specs.Sink.{unwritten};
ghost use Rattle.drm_sdc.specs.Bodies.{body_fields, mode_fields, mode_length, mode_size};
ghost use Rattle.drm_bits.specs.Sink.{WroteBits};
ghost use Rattle.drm_sdc.specs.declared.body.Body.TheVariants.{Label, App, Audio, Language};

use crate::AppMode;
use crate::put::put_octets;
use drm_bits::{BitSink, Octets};

pub fn write_label(sink: &mut BitSink<'_>, short: u8, spare: u8, text: &Octets)
    requires fits { AllFit (body_fields (Label short spare text.now)) }
    requires room { 4 + 8 * length text.now ≤ length (unwritten sink.old) }
    ensures wrote { WroteBits (spelled (body_fields (Label short spare text.now))) sink.old sink.new }
    ensures remaining { length (unwritten sink.new) + (4 + 8 * length text.now) ≡ length (unwritten sink.old) }
{
    sink.put_u8(short, 2);
    sink.put_u8(spare, 2);
    put_octets(sink, text);
}

pub fn write_language(sink: &mut BitSink<'_>, short: u8, spare: u8, language: u32, country: u16)
    requires fits { AllFit (body_fields (Language short spare language country)) }
    requires room { 44 ≤ length (unwritten sink.old) }
    ensures wrote { WroteBits (spelled (body_fields (Language short spare language country))) sink.old sink.new }
    ensures remaining { length (unwritten sink.new) + 44 ≡ length (unwritten sink.old) }
{
    sink.put_u8(short, 2);
    sink.put_u8(spare, 2);
    sink.put_u32(language, 24);
    sink.put_u16(country, 16);
}

pub fn write_application(
    sink: &mut BitSink<'_>,
    short: u8,
    stream: u8,
    packet: AppMode,
    enhancement: bool,
    domain: u8,
    bytes: &Octets,
)
    requires numbers { (short < 2 ^ 2) × (stream < 2 ^ 2) × (domain < 2 ^ 3) }
    requires mode { AllFit (mode_fields packet) }
    requires room { 4 + 8 * (mode_size packet + length bytes.now) ≤ length (unwritten sink.old) }
    ensures wrote { WroteBits (spelled (body_fields (App short stream packet enhancement domain bytes.now))) sink.old sink.new }
    ensures remaining { length (unwritten sink.new) + (4 + 8 * (mode_size packet + length bytes.now)) ≡ length (unwritten sink.old) }
{
    sink.put_u8(short, 2);
    sink.put_u8(stream, 2);
    write_mode(sink, packet, enhancement, domain);
    put_octets(sink, bytes);
}

fn write_mode(sink: &mut BitSink<'_>, packet: AppMode, enhancement: bool, domain: u8)
    requires fits { AllFit (mode_fields packet) }
    requires domain { domain < 2 ^ 3 }
    requires room { 8 * mode_size packet ≤ length (unwritten sink.old) }
    ensures wrote { WroteBits (spelled (mode_fields packet ++ (flag enhancement ∷ field 3 domain ∷ mode_length packet))) sink.old sink.new }
    ensures remaining { length (unwritten sink.new) + 8 * mode_size packet ≡ length (unwritten sink.old) }
{
    match packet {
        AppMode::Sync { spare } => {
            sink.put_flag(false);
            sink.put_u8(spare, 3);
            sink.put_flag(enhancement);
            sink.put_u8(domain, 3);
        }
        AppMode::Packet { unit, pid, length } => {
            sink.put_flag(true);
            sink.put_flag(unit);
            sink.put_u8(pid, 2);
            sink.put_flag(enhancement);
            sink.put_u8(domain, 3);
            sink.put_u8(length, 8);
        }
    }
}

pub fn write_audio(
    sink: &mut BitSink<'_>,
    short: u8,
    stream: u8,
    coding: u8,
    sbr: bool,
    mode: u8,
    rate: u8,
    text: bool,
    enhancement: bool,
    coder: u8,
    spare: bool,
    config: &Octets,
)
    requires fits { AllFit (body_fields (Audio short stream coding sbr mode rate text enhancement coder spare config.now)) }
    requires room { 20 + 8 * length config.now ≤ length (unwritten sink.old) }
    ensures wrote { WroteBits (spelled (body_fields (Audio short stream coding sbr mode rate text enhancement coder spare config.now))) sink.old sink.new }
    ensures remaining { length (unwritten sink.new) + (20 + 8 * length config.now) ≡ length (unwritten sink.old) }
{
    sink.put_u8(short, 2);
    sink.put_u8(stream, 2);
    sink.put_u8(coding, 2);
    sink.put_flag(sbr);
    sink.put_u8(mode, 2);
    sink.put_u8(rate, 3);
    sink.put_flag(text);
    sink.put_flag(enhancement);
    sink.put_u8(coder, 5);
    sink.put_flag(spare);
    put_octets(sink, config);
}
