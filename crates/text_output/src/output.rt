//! Texts in pieces to a sink.

ghost use Rattle.std.specs.Prelude.{◌≤◌, length, decimal};
ghost use Rattle.hex.specs.Hex.{encode_lower};
ghost use Rattle.drm_links.specs.Sink.{WritesWhole};
ghost use Rattle.text_output.specs.Text.{piece_text, text_of};

use crate::digits::put_digits;
use crate::piece::Piece;
use drm_links::{Sink, WriteFault, write_all};
use itoa::Buffer;

// The bytes whose digits are made at once.
const AT_ONCE: usize = 64;

/// Writes the texts of the pieces, one after another.
/// Example: of `[Piece::Words("feed "), Piece::Number(1)]` it writes `feed 1`.
pub fn write_pieces<O: Sink>(out: &mut O, pieces: &[Piece<'_>]) -> Result<(), WriteFault>
    ensures { WritesWhole result (O.known out.old) (O.known out.new) (text_of pieces.now) }
{
    for piece in pieces {
        write_piece(out, *piece)?;
    }
    Ok(())
}

/// Writes the text of a piece.
pub fn write_piece<O: Sink>(out: &mut O, piece: Piece<'_>) -> Result<(), WriteFault>
    ensures { WritesWhole result (O.known out.old) (O.known out.new) (piece_text piece.entry) }
{
    match piece {
        Piece::Words(text) => write_all(out, text.as_bytes()),
        Piece::Number(n) => write_number(out, n),
        Piece::Hex(bytes) => write_hex(out, bytes),
        Piece::Name(name) => write_all(out, &name),
    }
}

// Writes the decimal digits of a number. Most numbers of a report have one digit, which takes no room and no division.
fn write_number<O: Sink>(out: &mut O, n: u64) -> Result<(), WriteFault>
    ensures { WritesWhole result (O.known out.old) (O.known out.new) (decimal n) }
{
    if n < 10 {
        return write_all(out, &[b'0' + n as u8]);
    }
    write_all(out, Buffer::new().format(n).as_bytes())
}

/// Writes bytes in hex, two digits each.
/// Example: of the bytes 0 and 42 it writes `002a`.
pub fn write_hex<O: Sink>(out: &mut O, bytes: &[u8]) -> Result<(), WriteFault>
    ensures { WritesWhole result (O.known out.old) (O.known out.new) (encode_lower bytes.now) }
{
    let mut rest = bytes;
    while !rest.is_empty() {
        let (part, behind) = rest.split_at(rest.len().min(AT_ONCE));
        write_digits(out, part)?;
        rest = behind;
    }
    Ok(())
}

// Writes the digits of a few bytes in one call.
fn write_digits<O: Sink>(out: &mut O, bytes: &[u8]) -> Result<(), WriteFault>
    requires { length bytes.now ≤ 64 }
    ensures { WritesWhole result (O.known out.old) (O.known out.new) (encode_lower bytes.now) }
{
    let mut scratch = [0; 2 * AT_ONCE];
    let digits = &mut scratch[..2 * bytes.len()];
    put_digits(bytes, digits);
    write_all(out, digits)
}
