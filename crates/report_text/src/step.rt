//! A step of a feed: an item, behind the switch that stands before it.

ghost use Rattle.std.specs.Prelude.{◌≡◌};
ghost use Rattle.drm_links.specs.Sink.{WritesWhole};
ghost use Rattle.mod_feed.specs.Items.{item_of, IsReadItem};
ghost use Rattle.mod_feed.specs.Feeding.{step_of};
ghost use Rattle.text_output.specs.Text.{text_of};
ghost use Rattle.report_text.specs.Report.{before_line, missing_line, bad_line, item_line, step_text};

use crate::frame_line::write_frame;
use crate::words::bad_words;
use drm_links::{Sink, WriteFault};
use drm_reconfiguration::Before;
use mod_feed::{BadFault, FeedItem, Step};
use text_output::{Piece, write_pieces};

/// Writes the line of an item, behind that of the switch that stands before it.
pub fn write_step<O: Sink>(out: &mut O, step: &Step<'_>) -> Result<(), WriteFault>
    requires { IsReadItem step.now.item }
    ensures { WritesWhole result (O.known out.old) (O.known out.new) (step_text (step_of step.now)) }
{
    write_before(out, step.before)?;
    write_item(out, &step.item)
}

fn write_before<O: Sink>(out: &mut O, before: Option<Before>) -> Result<(), WriteFault>
    ensures { WritesWhole result (O.known out.old) (O.known out.new) (before_line before) }
{
    let (word, frame) = match before {
        None => return Ok(()),
        Some(Before::Switch(frame)) => ("switch ", frame),
        Some(Before::Resumed(frame)) => ("resumed ", frame),
    };
    write_pieces(
        out,
        &[Piece::Words(word), Piece::Number(frame), Piece::Words("\n")],
    )
}

fn write_item<O: Sink>(out: &mut O, item: &FeedItem<'_>) -> Result<(), WriteFault>
    requires { IsReadItem item.now }
    ensures { WritesWhole result (O.known out.old) (O.known out.new) (item_line (item_of item.now)) }
{
    match item {
        FeedItem::Frame { index, view } => write_frame(out, *index, view),
        FeedItem::Missing { index, had, of } => {
            write_pieces(out, &missing_pieces(*index, *had, *of))
        }
        FeedItem::Bad { index, fault } => write_pieces(out, &bad_pieces(*index, *fault)),
    }
}

fn missing_pieces(index: u64, had: u32, total: u32) -> [Piece<'static>; 7]
    ensures { text_of result ≡ missing_line index had total }
{
    [
        Piece::Words("missing "),
        Piece::Number(index),
        Piece::Words(" had "),
        Piece::Number(u64::from(had)),
        Piece::Words(" of "),
        Piece::Number(u64::from(total)),
        Piece::Words("\n"),
    ]
}

fn bad_pieces(index: u64, fault: BadFault) -> [Piece<'static>; 6]
    ensures { text_of result ≡ bad_line index fault }
{
    let words = bad_words(fault);
    [
        Piece::Words("bad "),
        Piece::Number(index),
        Piece::Words(" "),
        words.0,
        words.1,
        Piece::Words("\n"),
    ]
}
