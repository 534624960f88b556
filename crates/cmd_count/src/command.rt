//! The command `count`.

ghost use Rattle.std.specs.Prelude.{◌≡◌, Err, None};
ghost use Rattle.recv_reading.specs.Options.{AreInRange};
ghost use Rattle.cmd_count.specs.Run.{CountRun, CountCaptureRun, EndsCount};

use cmd_faults::Fault;
use cmd_receive::{capture_totals, link_totals};
use drm_links::{Address, Dock, Sink, Source, WriteOut};
use recv_reading::ReceiveOptions;
use report_text::{Piece, Totals, write_pieces};
use std::alloc::Global;

/// Opens a link at this address, reads it until it has read enough, closes it, and writes the totals of what came as one line.
/// Answers whether no frame is missing or bad.
pub fn count<D: Dock, O: Sink>(
    alloc: Global,
    options: &ReceiveOptions,
    at: Address,
    dock: &mut D,
    out: &mut O,
) -> Result<bool, Fault>
    requires { AreInRange options.now }
    ensures run { CountRun options.now at result D.known dock.old dock.new O.known out.old out.new }
{
    let counted = link_totals(alloc, options, at, dock, &mut Discard);
    write_line(counted, out)
}

/// The same of a capture from `input`.
pub fn count_capture<I: Source, O: Sink>(
    alloc: Global,
    options: &ReceiveOptions,
    input: &mut I,
    out: &mut O,
) -> Result<bool, Fault>
    requires { AreInRange options.now }
    ensures run { CountCaptureRun options.now result I.known input.old input.new O.known out.old out.new }
{
    let counted = capture_totals(alloc, options, input, &mut Discard);
    write_line(counted, out)
}

/// A sink that takes all: the report goes there.
#[derive(Drop)]
pub struct Discard;

impl Sink for Discard {
    ghost known = { λ _. record { faults = 0; contents = None } };

    fn write(&mut self, bytes: &[u8]) -> WriteOut {
        WriteOut::Wrote(bytes.len())
    }
}

// Writes the line of what was counted, and answers whether no frame is missing or bad.
fn write_line<O: Sink>(counted: Result<Totals, Fault>, out: &mut O) -> Result<bool, Fault>
    requires { counted ≡ Err Fault.Write → ⊥ }
    ensures { EndsCount counted result O.known out.old out.new }
{
    let totals = counted?;
    write_pieces(
        out,
        &[
            Piece::Words("count given "),
            Piece::Number(totals.sums.given),
            Piece::Words(" missing "),
            Piece::Number(totals.sums.missing),
            Piece::Words(" bad "),
            Piece::Number(totals.sums.bad),
            Piece::Words(" refused "),
            Piece::Number(totals.sums.refused),
            Piece::Words(" kept "),
            Piece::Number(totals.answers.kept),
            Piece::Words(" repeated "),
            Piece::Number(totals.answers.repeated),
            Piece::Words(" late "),
            Piece::Number(totals.answers.late),
            Piece::Words("\n"),
        ],
    )?;
    Ok(totals.is_clean())
}
