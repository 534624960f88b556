//! What the values of a line make.

ghost use Rattle.std.specs.Prelude.{◌≡◌, IfOk};
ghost use Rattle.plan_grammar.specs.Says.{version_at, mode_at, says_carry, says_service, says_stream, says_clock, says, allowed};

use crate::entities::{app, audio, freq, label, language, raw, when};
use drm_bits::{NoMemory, Octets};
use drm_fac::Service;
use drm_schedule::{Carry, Clock, Content, Mode, Stream};
use plan_grammar::{Keyword, Line, Version};
use plan_rows::{LineValue, byte_at, bytes_at, flag_at, number_at, short_at};
use std::alloc::Global;

fn version_at(place: u8) -> Version
    ensures { result ≡ version_at place }
{
    if place == 0 {
        Version::One
    } else {
        Version::Two
    }
}

fn carry(values: &[LineValue]) -> Line
    ensures { result ≡ says_carry values.now }
{
    if byte_at(values, 0) == 0 {
        return Line::Carry(Carry::Plain);
    }
    Line::Carry(Carry::Pft {
        m: byte_at(values, 1),
        mtu: short_at(values, 2),
    })
}

fn mode_at(code: u8) -> Mode
    ensures { result ≡ mode_at code }
{
    match Mode::from_code(code) {
        Some(mode) => mode,
        None => Mode::A,
    }
}

fn service(values: &[LineValue]) -> Line
    ensures { result ≡ says_service values.now }
{
    Line::Service(Service {
        id: number_at(values, 0),
        short: byte_at(values, 1),
        ca: flag_at(values, 2),
        language: byte_at(values, 3),
        is_data: byte_at(values, 4) == 1,
        descriptor: byte_at(values, 5),
        data_ca: flag_at(values, 6),
        last: 0,
    })
}

fn stream(alloc: Global, values: &[LineValue]) -> Result<Line, NoMemory>
    ensures { IfOk result (λ line. line ≡ says_stream values.now) }
{
    let (a, b) = (short_at(values, 0), short_at(values, 1));
    if byte_at(values, 2) == 0 {
        let content = Content::Fill(byte_at(values, 3));
        return Ok(Line::Stream(Stream { a, b, content }));
    }
    let name = bytes_at(alloc, values, 3)?;
    let bytes = Octets::from_slice(alloc, &[])?;
    let content = Content::File { name, bytes };
    Ok(Line::Stream(Stream { a, b, content }))
}

fn clock(values: &[LineValue]) -> Line
    ensures { result ≡ says_clock values.now }
{
    Line::Clock(Clock {
        mjd: number_at(values, 0),
        hours: byte_at(values, 1),
        minutes: byte_at(values, 2),
    })
}

/// Whether the values of a line can stand together.
pub(crate) fn allowed(keyword: Keyword, values: &[LineValue]) -> bool
    ensures { result ≡ allowed keyword values.now }
{
    match keyword {
        Keyword::Stream => { u32::from(short_at(values, 0)) + u32::from(short_at(values, 1)) >= 1 }
        _ => true,
    }
}

/// What a line of these values says.
pub(crate) fn made(alloc: Global, keyword: Keyword, values: &[LineValue]) -> Result<Line, NoMemory>
    ensures { IfOk result (λ line. line ≡ says keyword values.now) }
{
    match keyword {
        Keyword::Drmplan => Ok(Line::Version(version_at(byte_at(values, 0)))),
        Keyword::Carry => Ok(carry(values)),
        Keyword::First => Ok(Line::First {
            seq: short_at(values, 0),
            dlfc: number_at(values, 1),
        }),
        Keyword::Length => Ok(Line::Length(number_at(values, 0))),
        Keyword::Config => Ok(Line::Config {
            start: number_at(values, 0),
            countdown: byte_at(values, 1),
        }),
        Keyword::Mode => Ok(Line::Mode(mode_at(byte_at(values, 0)))),
        Keyword::Occupancy => Ok(Line::Occupancy(byte_at(values, 0))),
        Keyword::Depth => Ok(Line::Depth {
            short: byte_at(values, 0) == 1,
        }),
        Keyword::Msc => Ok(Line::Msc(byte_at(values, 0))),
        Keyword::Sdc => Ok(Line::Sdc {
            qam4: flag_at(values, 0),
        }),
        Keyword::Protection => Ok(Line::Protection {
            a: byte_at(values, 0),
            b: byte_at(values, 1),
        }),
        Keyword::Room => Ok(Line::Room(short_at(values, 0))),
        Keyword::Service => Ok(service(values)),
        Keyword::Stream => stream(alloc, values),
        Keyword::Clock => Ok(clock(values)),
        Keyword::Block => Ok(Line::Block {
            from: number_at(values, 0),
        }),
        Keyword::Label => label(alloc, values),
        Keyword::Freq => freq(alloc, values),
        Keyword::When => Ok(when(values)),
        Keyword::App => app(alloc, values),
        Keyword::Audio => audio(alloc, values),
        Keyword::Language => Ok(language(values)),
        _ => raw(alloc, values),
    }
}
