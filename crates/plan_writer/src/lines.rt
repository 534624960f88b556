//! The canonical lines but those of entities, each by its row.

ghost use Rattle.std.specs.Prelude.{◌≡◌, ◌++◌, ◌∷◌, [], OnOk};
ghost use Rattle.plan_rows.specs.Tables.{line_written};
ghost use Rattle.plan_grammar.specs.Said.{line_text};
ghost use Rattle.plan_grammar.specs.Says.{place};

use crate::entities::write_entity;
use drm_bits::NoMemory;
use drm_schedule::{Carry, Content, Stream};
use plan_grammar::{Keyword, Line, TABLE, Version};
use plan_rows::LineValue::{self, Byte, Flag, Long, Short};
use std::alloc::Global;

/// Writes the line of these values.
pub(crate) fn put(
    alloc: Global,
    out: &mut Vec<u8>,
    keyword: Keyword,
    values: &[LineValue],
) -> Result<(), NoMemory>
    ensures { OnOk result (out.new.items ≡ out.old.items ++ (line_written TABLE 2 keyword values.now ++ 10 ∷ [])) }
{
    plan_rows::write_line(alloc, out, &TABLE, 2, keyword, values)?;
    Ok(())
}

// The place of the second of two words, where it is that one.
fn place(second: bool) -> LineValue
    ensures { result ≡ place second }
{
    match second {
        false => Byte(0),
        true => Byte(1),
    }
}

/// Writes a stream's line, its file by the name.
pub fn write_stream(alloc: Global, out: &mut Vec<u8>, stream: &Stream) -> Result<(), NoMemory>
    ensures { OnOk result (out.new.items ≡ out.old.items ++ line_text (Line.Stream stream.now)) }
{
    let (a, b) = (stream.a, stream.b);
    match &stream.content {
        Content::Fill(byte) => {
            let values = [Short(a), Short(b), Byte(0), Byte(*byte)];
            put(alloc, out, Keyword::Stream, &values)
        }
        Content::File { name, .. } => {
            let name = LineValue::of_bytes(alloc, name.as_slice())?;
            let values = [Short(a), Short(b), Byte(1), name];
            put(alloc, out, Keyword::Stream, &values)
        }
    }
}

/// Writes a line in its canonical form.
/// Example: of `Line::Length(9)` it writes `length 9` and a line feed.
pub fn write_line(alloc: Global, out: &mut Vec<u8>, line: &Line) -> Result<(), NoMemory>
    ensures { OnOk result (out.new.items ≡ out.old.items ++ line_text line.now) }
{
    match line {
        Line::Version(Version::One) => put(alloc, out, Keyword::Drmplan, &[Byte(0)]),
        Line::Version(Version::Two) => put(alloc, out, Keyword::Drmplan, &[Byte(1)]),
        Line::Carry(Carry::Plain) => put(alloc, out, Keyword::Carry, &[Byte(0)]),
        Line::Carry(Carry::Pft { m, mtu }) => {
            put(
                alloc,
                out,
                Keyword::Carry,
                &[Byte(1), Byte(*m), Short(*mtu)],
            )
        }
        Line::First { seq, dlfc } => {
            put(alloc, out, Keyword::First, &[Short(*seq), Long(*dlfc)])
        }
        Line::Length(n) => put(alloc, out, Keyword::Length, &[Long(*n)]),
        Line::Config { start, countdown } => {
            put(
                alloc,
                out,
                Keyword::Config,
                &[Long(*start), Byte(*countdown)],
            )
        }
        Line::Mode(mode) => put(alloc, out, Keyword::Mode, &[Byte(mode.code())]),
        Line::Occupancy(n) => put(alloc, out, Keyword::Occupancy, &[Byte(*n)]),
        Line::Depth { short } => put(alloc, out, Keyword::Depth, &[place(*short)]),
        Line::Msc(n) => put(alloc, out, Keyword::Msc, &[Byte(*n)]),
        Line::Sdc { qam4 } => put(alloc, out, Keyword::Sdc, &[Flag(*qam4)]),
        Line::Protection { a, b } => { put(alloc, out, Keyword::Protection, &[Byte(*a), Byte(*b)]) }
        Line::Room(n) => put(alloc, out, Keyword::Room, &[Short(*n)]),
        Line::Service(service) => {
            let values = [
                Long(service.id),
                Byte(service.short),
                Flag(service.ca),
                Byte(service.language),
                place(service.is_data),
                Byte(service.descriptor),
                Flag(service.data_ca),
            ];
            put(alloc, out, Keyword::Service, &values)
        }
        Line::Stream(stream) => write_stream(alloc, out, stream),
        Line::Clock(clock) => {
            let values = [Long(clock.mjd), Byte(clock.hours), Byte(clock.minutes)];
            put(alloc, out, Keyword::Clock, &values)
        }
        Line::Block { from } => put(alloc, out, Keyword::Block, &[Long(*from)]),
        Line::Entity(entity) => write_entity(alloc, out, entity),
    }
}
