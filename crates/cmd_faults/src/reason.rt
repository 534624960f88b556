//! The words for what is wrong with a text.

ghost use Rattle.std.specs.Prelude.{◌≡◌};
ghost use Rattle.cmd_faults.specs.Reasons.{reason_word, reason_line, schedule_line, script_line};
ghost use Rattle.text_output.specs.Text.{text_of};

use drm_schedule::Reason;
use text_output::Piece;

/// The line of a fault in a line of a schedule's text.
pub fn schedule_pieces(line: u32, reason: Reason) -> [Piece<'static>; 5]
    ensures { text_of result ≡ schedule_line line (reason_word reason) }
{
    line_pieces("drmcast: schedule line ", line, reason)
}

/// The line of a fault in a line of a script's text.
pub fn script_pieces(line: u32, reason: Reason) -> [Piece<'static>; 5]
    ensures { text_of result ≡ script_line line (reason_word reason) }
{
    line_pieces("drmcast: script line ", line, reason)
}

fn line_pieces(front: &'static str, line: u32, reason: Reason) -> [Piece<'static>; 5]
    ensures { text_of result ≡ reason_line front.now line (reason_word reason) }
{
    [
        Piece::Words(front),
        Piece::Number(u64::from(line)),
        Piece::Words(": "),
        Piece::Words(word(reason)),
        Piece::Words("\n"),
    ]
}

fn word(reason: Reason) -> &'static str
    ensures { result.now ≡ reason_word reason }
{
    match reason {
        Reason::Utf8 => "utf8",
        Reason::Word => "word",
        Reason::Number => "number",
        Reason::Range => "range",
        Reason::Missing => "missing",
        Reason::Twice => "twice",
        Reason::Order => "order",
        Reason::Countdown => "countdown",
        Reason::Block => "block",
        Reason::Services => "services",
        Reason::Occupancy => "occupancy",
        Reason::Hierarchical => "hierarchical",
        Reason::Fit => "fit",
        Reason::ContentShort => "content-short",
        Reason::PacketSize => "packet-size",
        Reason::TooLong => "too-long",
    }
}
