//! The canonical lines of entities, each by its row.

ghost use Rattle.std.specs.Prelude.{◌≡◌, ◌++◌, OnOk};
ghost use Rattle.plan_grammar.specs.Said.{line_text};

use crate::lines::put;
use drm_bits::NoMemory;
use drm_sdc::{AppMode, Body, Entity};
use plan_grammar::{Keyword, Line};
use plan_rows::LineValue::{self, Byte, Flag, Long, OptionalByte, Short};
use std::alloc::Global;

/// Writes an entity's line.
pub fn write_entity(alloc: Global, out: &mut Vec<u8>, entity: &Entity) -> Result<(), NoMemory>
    ensures { OnOk result (out.new.items ≡ out.old.items ++ line_text (Line.Entity entity.now)) }
{
    match &entity.body {
        Body::Label { short, text, .. } => {
            let text = LineValue::of_bytes(alloc, text.as_slice())?;
            put(alloc, out, Keyword::Label, &[Byte(*short), text])
        }
        Body::Freq {
            sync,
            layer,
            restriction,
            region,
            list,
        } => {
            let list = LineValue::of_frequencies(alloc, list)?;
            let (restriction, region) = (OptionalByte(*restriction), OptionalByte(*region));
            let values = [Flag(*sync), Flag(*layer), restriction, region, list];
            put(alloc, out, Keyword::Freq, &values)
        }
        Body::When {
            id,
            day,
            start,
            duration,
        } => {
            let values = [Byte(*id), Byte(*day), Short(*start), Short(*duration)];
            put(alloc, out, Keyword::When, &values)
        }
        Body::App {
            short,
            stream,
            packet,
            enhancement,
            domain,
            bytes,
        } => {
            let (short, stream) = (Byte(*short), Byte(*stream));
            let (enhancement, domain) = (Flag(*enhancement), Byte(*domain));
            let bytes = LineValue::of_bytes(alloc, bytes.as_slice())?;
            match packet {
                AppMode::Sync { .. } => {
                    let values = [short, stream, Byte(0), enhancement, domain, bytes];
                    put(alloc, out, Keyword::App, &values)
                }
                AppMode::Packet { unit, pid, length } => {
                    let (unit, pid, length) = (Flag(*unit), Byte(*pid), Byte(*length));
                    let values = [
                        short,
                        stream,
                        Byte(1),
                        unit,
                        pid,
                        enhancement,
                        domain,
                        length,
                        bytes,
                    ];
                    put(alloc, out, Keyword::App, &values)
                }
            }
        }
        Body::Audio {
            short,
            stream,
            coding,
            sbr,
            mode,
            rate,
            text,
            enhancement,
            coder,
            config,
            ..
        } => {
            let values = [
                Byte(*short),
                Byte(*stream),
                Byte(*coding),
                Flag(*sbr),
                Byte(*mode),
                Byte(*rate),
                Flag(*text),
                Flag(*enhancement),
                Byte(*coder),
                LineValue::of_bytes(alloc, config.as_slice())?,
            ];
            // Without config bytes there is no last word.
            match config.as_slice() {
                [] => put(alloc, out, Keyword::Audio, &values[..9]),
                _ => put(alloc, out, Keyword::Audio, &values),
            }
        }
        Body::Language {
            short,
            language,
            country,
            ..
        } => {
            let values = [Byte(*short), Long(*language), Short(*country)];
            put(alloc, out, Keyword::Language, &values)
        }
        Body::Raw {
            kind,
            nibble,
            bytes,
        } => {
            let bytes = LineValue::of_bytes(alloc, bytes.as_slice())?;
            let values = [Byte(*kind), Flag(entity.version), Byte(*nibble), bytes];
            put(alloc, out, Keyword::Raw, &values)
        }
        _ => put(alloc, out, Keyword::Raw, &[]),
    }
}
