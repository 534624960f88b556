//! Entities made of a line's values.

ghost use Rattle.std.specs.Prelude.{◌≡◌, IfOk};
ghost use Rattle.plan_grammar.specs.Says.{says_audio, says_app, says_raw, says_label, says_freq, says_when, says_language, current};

use drm_bits::NoMemory;
use drm_sdc::{AppMode, Body, Entity};
use plan_grammar::Line;
use plan_rows::{
    LineValue, byte_at, bytes_at, flag_at, frequencies_at, number_at, optional_byte_at, short_at,
};
use std::alloc::Global;

// The line of an entity of the current configuration.
fn current(body: Body) -> Line
    ensures { result ≡ current body }
{
    Line::Entity(Entity {
        version: false,
        body,
    })
}

pub(crate) fn label(alloc: Global, values: &[LineValue]) -> Result<Line, NoMemory>
    ensures { IfOk result (λ line. line ≡ says_label values.now) }
{
    Ok(current(Body::Label {
        short: byte_at(values, 0),
        spare: 0,
        text: bytes_at(alloc, values, 1)?,
    }))
}

pub(crate) fn freq(alloc: Global, values: &[LineValue]) -> Result<Line, NoMemory>
    ensures { IfOk result (λ line. line ≡ says_freq values.now) }
{
    Ok(current(Body::Freq {
        sync: flag_at(values, 0),
        layer: flag_at(values, 1),
        restriction: optional_byte_at(values, 2),
        region: optional_byte_at(values, 3),
        list: frequencies_at(alloc, values, 4)?,
    }))
}

pub(crate) fn when(values: &[LineValue]) -> Line
    ensures { result ≡ says_when values.now }
{
    current(Body::When {
        id: byte_at(values, 0),
        day: byte_at(values, 1),
        start: short_at(values, 2),
        duration: short_at(values, 3),
    })
}

pub(crate) fn app(alloc: Global, values: &[LineValue]) -> Result<Line, NoMemory>
    ensures { IfOk result (λ line. line ≡ says_app values.now) }
{
    if byte_at(values, 2) == 0 {
        return Ok(current(Body::App {
            short: byte_at(values, 0),
            stream: byte_at(values, 1),
            packet: AppMode::Sync { spare: 0 },
            enhancement: flag_at(values, 3),
            domain: byte_at(values, 4),
            bytes: bytes_at(alloc, values, 5)?,
        }));
    }
    let packet = AppMode::Packet {
        unit: flag_at(values, 3),
        pid: byte_at(values, 4),
        length: byte_at(values, 7),
    };
    Ok(current(Body::App {
        short: byte_at(values, 0),
        stream: byte_at(values, 1),
        packet,
        enhancement: flag_at(values, 5),
        domain: byte_at(values, 6),
        bytes: bytes_at(alloc, values, 8)?,
    }))
}

pub(crate) fn audio(alloc: Global, values: &[LineValue]) -> Result<Line, NoMemory>
    ensures { IfOk result (λ line. line ≡ says_audio values.now) }
{
    Ok(current(Body::Audio {
        short: byte_at(values, 0),
        stream: byte_at(values, 1),
        coding: byte_at(values, 2),
        sbr: flag_at(values, 3),
        mode: byte_at(values, 4),
        rate: byte_at(values, 5),
        text: flag_at(values, 6),
        enhancement: flag_at(values, 7),
        coder: byte_at(values, 8),
        spare: false,
        config: bytes_at(alloc, values, 9)?,
    }))
}

pub(crate) fn language(values: &[LineValue]) -> Line
    ensures { result ≡ says_language values.now }
{
    current(Body::Language {
        short: byte_at(values, 0),
        spare: 0,
        language: number_at(values, 1),
        country: short_at(values, 2),
    })
}

pub(crate) fn raw(alloc: Global, values: &[LineValue]) -> Result<Line, NoMemory>
    ensures { IfOk result (λ line. line ≡ says_raw values.now) }
{
    Ok(Line::Entity(Entity {
        version: flag_at(values, 1),
        body: Body::Raw {
            kind: byte_at(values, 0),
            nibble: byte_at(values, 2),
            bytes: bytes_at(alloc, values, 3)?,
        },
    }))
}
