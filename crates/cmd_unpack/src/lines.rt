//! The lines that are printed.

ghost use Rattle.std.specs.Prelude.{◌≡◌};
ghost use Rattle.std.specs.List.{flat_map};
ghost use Rattle.drm_links.specs.Sink.{WritesWhole};
ghost use Rattle.text_output.specs.Text.{text_of};
ghost use Rattle.drm_data.specs.Joining.{answer_of};
ghost use Rattle.cmd_unpack.specs.Lines.{unit_line, cut_line, answer_text, is_escaped, escaped, text_line, units_end, units_end_text, texts_end, texts_end_text};

use crate::counts::Counts;
use drm_data::Joined;
use drm_links::{Sink, WriteFault, write_all};
use itoa::Buffer;
use text_output::{Piece, write_pieces};

/// Writes what is printed of a joiner's answer.
pub(crate) fn write_answer<O: Sink>(out: &mut O, said: &Joined<'_>) -> Result<(), WriteFault>
    ensures { WritesWhole result (O.known out.old) (O.known out.new) (answer_text (answer_of said.now)) }
{
    match said {
        Joined::Nothing => Ok(()),
        Joined::Unit(unit) => write_unit(out, unit),
        Joined::Cut => write_cut(out, true),
        Joined::CutUnit(unit) => {
            write_cut(out, true)?;
            write_unit(out, unit)
        }
        Joined::Refused { cut, .. } => write_cut(out, *cut),
    }
}

fn write_unit<O: Sink>(out: &mut O, unit: &[u8]) -> Result<(), WriteFault>
    ensures { WritesWhole result (O.known out.old) (O.known out.new) (unit_line unit.now) }
{
    let digits = if unit.is_empty() {
        Piece::Words("-")
    } else {
        Piece::Hex(unit)
    };
    write_pieces(out, &[Piece::Words("unit "), digits, Piece::Words("\n")])
}

/// Writes that a unit was cut, where one was.
pub(crate) fn write_cut<O: Sink>(out: &mut O, cut: bool) -> Result<(), WriteFault>
    ensures { WritesWhole result (O.known out.old) (O.known out.new) (cut_line cut) }
{
    if cut {
        write_all(out, b"cut\n")
    } else {
        Ok(())
    }
}

/// Writes the line of a message.
pub(crate) fn write_text<O: Sink>(out: &mut O, message: &str) -> Result<(), WriteFault>
    ensures { WritesWhole result (O.known out.old) (O.known out.new) (text_line message.now) }
{
    write_all(out, b"text ")?;
    write_escaped(out, message.as_bytes())?;
    write_all(out, b"\n")
}

fn write_escaped<O: Sink>(out: &mut O, bytes: &[u8]) -> Result<(), WriteFault>
    ensures { WritesWhole result (O.known out.old) (O.known out.new) (flat_map escaped bytes.now) }
{
    for byte in bytes {
        write_byte(out, *byte)?;
    }
    Ok(())
}

fn write_byte<O: Sink>(out: &mut O, byte: u8) -> Result<(), WriteFault>
    ensures { WritesWhole result (O.known out.old) (O.known out.new) (escaped byte) }
{
    if is_escaped(byte) {
        write_pieces(out, &[Piece::Words("\\x"), Piece::Hex(&[byte])])
    } else {
        write_all(out, &[byte])
    }
}

fn is_escaped(byte: u8) -> bool
    ensures { result ≡ is_escaped byte }
{
    byte < 0x20 || (byte == 0x7f || byte == b'\\')
}

/// Writes the last line of `unpack`.
pub(crate) fn write_units_end<O: Sink>(out: &mut O, counts: &Counts) -> Result<(), WriteFault>
    ensures { WritesWhole result (O.known out.old) (O.known out.new) (units_end counts.now) }
{
    let mut given = Buffer::new();
    let mut cut = Buffer::new();
    let mut bad = Buffer::new();
    let mut missing = Buffer::new();
    let pieces = units_pieces(
        given.format(counts.given),
        cut.format(counts.cut),
        bad.format(counts.bad),
        missing.format(counts.missing),
    );
    write_pieces(out, &pieces)
}

fn units_pieces<'a>(given: &'a str, cut: &'a str, bad: &'a str, missing: &'a str) -> [Piece<'a>; 9]
    ensures { text_of result ≡ units_end_text given.now cut.now bad.now missing.now }
{
    [
        Piece::Words("end units "),
        Piece::Words(given),
        Piece::Words(" cut "),
        Piece::Words(cut),
        Piece::Words(" bad "),
        Piece::Words(bad),
        Piece::Words(" missing "),
        Piece::Words(missing),
        Piece::Words("\n"),
    ]
}

/// Writes the last line of `texts`.
pub(crate) fn write_texts_end<O: Sink>(out: &mut O, counts: &Counts) -> Result<(), WriteFault>
    ensures { WritesWhole result (O.known out.old) (O.known out.new) (texts_end counts.now) }
{
    let mut given = Buffer::new();
    let mut missing = Buffer::new();
    let mut bad = Buffer::new();
    let pieces = texts_pieces(
        given.format(counts.given),
        missing.format(counts.missing),
        bad.format(counts.bad),
    );
    write_pieces(out, &pieces)
}

fn texts_pieces<'a>(given: &'a str, missing: &'a str, bad: &'a str) -> [Piece<'a>; 7]
    ensures { text_of result ≡ texts_end_text given.now missing.now bad.now }
{
    [
        Piece::Words("end texts "),
        Piece::Words(given),
        Piece::Words(" missing "),
        Piece::Words(missing),
        Piece::Words(" bad "),
        Piece::Words(bad),
        Piece::Words("\n"),
    ]
}
