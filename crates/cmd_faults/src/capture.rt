//! The words for what is wrong with a capture.

ghost use Rattle.std.specs.Prelude.{◌≡◌};
ghost use Rattle.cmd_faults.specs.Captures.{capture_line, field_word};
ghost use Rattle.text_output.specs.Text.{text_of};

use capture_reader::{CaptureFault, CaptureField};
use text_output::Piece;

/// The line of a fault at a byte of a capture.
pub fn capture_pieces(fault: CaptureFault) -> [Piece<'static>; 5]
    ensures { text_of result ≡ capture_line fault }
{
    [
        Piece::Words("drmcast: capture byte "),
        Piece::Number(fault.at),
        Piece::Words(": "),
        Piece::Words(word(fault.field)),
        Piece::Words("\n"),
    ]
}

fn word(field: CaptureField) -> &'static str
    ensures { result.now ≡ field_word field }
{
    match field {
        CaptureField::Sync => "sync",
        CaptureField::HeadCrc => "head-crc",
        CaptureField::TooLarge => "too-large",
        CaptureField::HeadCut => "head-cut",
        CaptureField::BodyCut => "body-cut",
    }
}
