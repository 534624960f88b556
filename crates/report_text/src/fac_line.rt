//! The line of a FAC.

ghost use Rattle.std.specs.Prelude.{◌≡◌, ◌<◌, ◌++◌, codes, decimal, if◌then◌else◌};
ghost use Rattle.std.specs.Int.{from_bool};
ghost use Rattle.hex.specs.Hex.{encode_lower};
ghost use Rattle.drm_links.specs.Sink.{WritesWhole};
ghost use Rattle.drm_fac.specs.Fac.{FacFits};
ghost use Rattle.drm_fac.specs.Services.{counts_of};
ghost use Rattle.text_output.specs.Text.{piece_text, text_of};
ghost use Rattle.report_text.specs.FacLine.{fac_line, id_digits, services_text};

use drm_fac::{Fac, counts};
use drm_links::{Sink, WriteFault};
use text_output::{Piece, write_pieces};

/// Writes the line of a FAC.
#[tactic(auto, unfolding(crate::specs::FacLine::id_digits))]
pub fn write_fac<O: Sink>(out: &mut O, fac: &Fac) -> Result<(), WriteFault>
    requires { FacFits fac.now }
    ensures { WritesWhole result (O.known out.old) (O.known out.new) (fac_line fac.now) }
{
    let id = fac.service.id.to_be_bytes();
    write_pieces(out, &pieces(fac, &id[1..]))
}

const PIECES: usize = 37;

fn pieces<'a>(fac: &Fac, id: &'a [u8]) -> [Piece<'a>; PIECES]
    requires services { fac.now.channel.services < 16 }
    requires id { encode_lower id.now ≡ id_digits fac.now.service.id }
    ensures { text_of result ≡ fac_line fac.now }
{
    let channel = &fac.channel;
    let service = &fac.service;
    let services = services(channel.services);
    [
        Piece::Words("base "),
        flag(channel.enhancement),
        Piece::Words(" identity "),
        number(channel.identity),
        Piece::Words(" occupancy "),
        number(channel.occupancy),
        Piece::Words(" depth "),
        depth(channel.short_depth),
        Piece::Words(" msc "),
        number(channel.msc),
        Piece::Words(" sdc "),
        flag(channel.qam4),
        Piece::Words(" services "),
        services.0,
        services.1,
        services.2,
        Piece::Words(" index "),
        number(channel.index),
        Piece::Words(" last "),
        number(channel.last),
        Piece::Words(" id "),
        Piece::Hex(id),
        Piece::Words(" short "),
        number(service.short),
        Piece::Words(" ca "),
        flag(service.ca),
        Piece::Words(" language "),
        number(service.language),
        Piece::Words(" kind "),
        kind(service.is_data),
        Piece::Words(" descriptor "),
        number(service.descriptor),
        Piece::Words(" dca "),
        flag(service.data_ca),
        Piece::Words(" last "),
        number(service.last),
        Piece::Words("\n"),
    ]
}

fn flag<'a>(set: bool) -> Piece<'a>
    ensures { piece_text result ≡ decimal (from_bool set) }
{
    Piece::Number(u64::from(set))
}

fn number<'a>(n: u8) -> Piece<'a>
    ensures { piece_text result ≡ decimal n }
{
    Piece::Number(u64::from(n))
}

fn depth<'a>(short: bool) -> Piece<'a>
    ensures { piece_text result ≡ (if short then codes "short" else codes "long") }
{
    Piece::Words(if short { "short" } else { "long" })
}

fn kind<'a>(is_data: bool) -> Piece<'a>
    ensures { piece_text result ≡ (if is_data then codes "data" else codes "audio") }
{
    Piece::Words(if is_data { "data" } else { "audio" })
}

fn services<'a>(code: u8) -> (Piece<'a>, Piece<'a>, Piece<'a>)
    requires { code < 16 }
    ensures { piece_text result.0 ++ (piece_text result.1 ++ piece_text result.2)
        ≡ services_text code (counts_of code) }
{
    match counts(code) {
        Some((audio, data)) => (number(audio), Piece::Words("+"), number(data)),
        None => (Piece::Words("reserved "), number(code), Piece::Words("")),
    }
}
