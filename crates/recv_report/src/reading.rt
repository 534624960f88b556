//! Reading, and the report of what came.

ghost use Rattle.std.specs.Prelude.{◌≡◌, ◌<◌, ◌^◌, [], true, Err, IfOk, IfErr, IsErr};
ghost use Rattle.drm_links.specs.Known.{RisesWhere, HasCause};
ghost use Rattle.dcp_collect.specs.CollectorState.{made, ready, after_item};
ghost use Rattle.drm_reconfiguration.specs.Tracker.{new_tracker};
ghost use Rattle.recv_reading.specs.Options.{AreUsable, options_of};
ghost use Rattle.recv_report.specs.Received.{ReportCounted};
ghost use Rattle.report_text.specs.Tallies.{new_tally, items_in, totals_in};
ghost use Rattle.report_text.specs.Totals.{answered};
ghost use Rattle.recv_report.specs.Progress.{WritesNext, noted_if, WroteItems, StopsReading, StopsReport};
ghost use Rattle.recv_report.specs.Faults.{IsCallFailed};
ghost use Rattle.recv_report.specs.declared.reading.ReceiveFault.{ReceiveFault};

use dcp_collect::{Collector, Taken};
use drm_bits::NoMemory;
use drm_links::{Sink, WriteFault};
use mod_feed::Feed;
use recv_reading::{Bounds, Datagrams, EndWord, Reading, SourceFault};
use report_text::{LineWriter, ReportCounts, Totals, write_feed};
use std::alloc::Global;

/// Why a report isn't whole.
#[derive(Clone, Copy, Debug, PartialEq, Eq)]
pub(crate) enum ReceiveFault {
    /// No datagram can be had any more.
    Source(SourceFault),
    Write,
    NoMemory,
}

impl From<SourceFault> for ReceiveFault {
    ghost use Rattle.std.specs.Prelude.{◌≡◌};
    ghost use Rattle.recv_report.specs.declared.reading.ReceiveFault.TheVariants.{Source};

    ghost from_gives = { λ fault why. why ≡ Source fault };

    fn from(fault: SourceFault) -> Self {
        ReceiveFault::Source(fault)
    }
}

impl From<WriteFault> for ReceiveFault {
    ghost use Rattle.std.specs.Prelude.{◌≡◌};
    ghost use Rattle.recv_report.specs.declared.reading.ReceiveFault.TheVariants.{Write};

    ghost from_gives = { λ _ why. why ≡ Write };

    fn from(_: WriteFault) -> Self {
        ReceiveFault::Write
    }
}

impl From<NoMemory> for ReceiveFault {
    ghost use Rattle.std.specs.Prelude.{◌≡◌};
    ghost use Rattle.recv_report.specs.declared.reading.ReceiveFault.TheVariants as faults;

    ghost from_gives = { λ _ why. why ≡ faults.NoMemory };

    fn from(_: NoMemory) -> Self {
        ReceiveFault::NoMemory
    }
}

/// Takes all memory that it wants, reads until it has read enough, and writes the report of what came, which has this number.
/// Collector and feed are new. Answers the totals of what came.
pub(crate) fn write_report<F, R: Datagrams<F>, O: Sink>(
    alloc: Global,
    number: u8,
    bounds: Bounds,
    collector: &mut Collector,
    feed: &mut Feed,
    reader: &mut R,
    from: &mut F,
    out: &mut O,
) -> Result<Totals, ReceiveFault>
    requires options { AreUsable (options_of collector.old bounds) }
    requires collector { collector.old ≡ made collector.old.window collector.old.reach collector.old.first }
    requires feed { feed.old ≡ new_tracker }
    requires reader { R.is_ready reader.old }
    requires nothing_heard { R.so_far from.old reader.old from.old [] }
    ensures finished { IfOk result (ReportCounted (options_of collector.old bounds) number (R.so_far from.old reader.new from.new) (O.known out.old) (O.known out.new)) }
    ensures stopped { IfErr result (StopsReport (options_of collector.old bounds) number (R.so_far from.old reader.new from.new)
        (λ fault. R.until from.old fault from.new) (O.known out.old) (O.known out.new)) }
    ensures memory { result ≡ Err ReceiveFault.NoMemory → (from.new ≡ from.old) × (out.new ≡ out.old) }
    ensures source { RisesWhere (R.faults from.old) (R.faults from.new) (IsCallFailed result) }
    ensures write { HasCause (O.known out.old) (O.known out.new) (result ≡ Err ReceiveFault.Write) }
{
    let mut tally = ReportCounts::new(alloc)?;
    let mut lines = LineWriter::make(alloc)?;
    write_lines(
        number, bounds, collector, feed, &mut tally, &mut lines, reader, from, out,
    )
}

// Reads until it has read enough, and writes the lines of the report, with a new tally and nothing gathered.
fn write_lines<F, R: Datagrams<F>, O: Sink>(
    number: u8,
    bounds: Bounds,
    collector: &mut Collector,
    feed: &mut Feed,
    tally: &mut ReportCounts,
    lines: &mut LineWriter,
    reader: &mut R,
    from: &mut F,
    out: &mut O,
) -> Result<Totals, ReceiveFault>
    requires options { AreUsable (options_of collector.old bounds) }
    requires collector { collector.old ≡ made collector.old.window collector.old.reach collector.old.first }
    requires feed { feed.old ≡ new_tracker }
    requires nothing_written { (tally.old ≡ new_tally) × (lines.old ≡ []) }
    requires reader { R.is_ready reader.old }
    requires nothing_heard { R.so_far from.old reader.old from.old [] }
    ensures finished { IfOk result (ReportCounted (options_of collector.old bounds) number (R.so_far from.old reader.new from.new) (O.known out.old) (O.known out.new)) }
    ensures stopped { IfErr result (StopsReport (options_of collector.old bounds) number (R.so_far from.old reader.new from.new)
        (λ fault. R.until from.old fault from.new) (O.known out.old) (O.known out.new)) }
    ensures memory { result ≡ Err ReceiveFault.NoMemory → ⊥ }
    ensures source { RisesWhere (R.faults from.old) (R.faults from.new) (IsCallFailed result) }
    ensures write { HasCause (O.known out.old) (O.known out.new) (result ≡ Err ReceiveFault.Write) }
{
    write_feed(out, number)?;
    let word = read_all(bounds, collector, feed, tally, lines, reader, from, out)?;
    tally.write_refused(out)?;
    tally.write_end(out, word)?;
    Ok(tally.totals())
}

// Reads until no more is read, and answers why. Each item is given to the feed, counted, and its lines are written before the next
// answer is asked for.
fn read_all<F, R: Datagrams<F>, O: Sink>(
    bounds: Bounds,
    collector: &mut Collector,
    feed: &mut Feed,
    tally: &mut ReportCounts,
    lines: &mut LineWriter,
    reader: &mut R,
    from: &mut F,
    out: &mut O,
) -> Result<EndWord, ReceiveFault>
    requires options { AreUsable (options_of collector.old bounds) }
    requires collector { collector.old ≡ made collector.old.window collector.old.reach collector.old.first }
    requires feed { feed.old ≡ new_tracker }
    requires nothing_written { (tally.old ≡ new_tally) × (lines.old ≡ []) }
    requires reader { R.is_ready reader.old }
    requires nothing_heard { R.so_far from.old reader.old from.old [] }
    ensures finished { IfOk result (WroteItems (options_of collector.old bounds) (R.so_far from.old reader.new from.new) (O.known out.old) (O.known out.new)
        tally.new) }
    ensures stopped { IfErr result (StopsReading (options_of collector.old bounds) (R.so_far from.old reader.new from.new)
        (λ fault. R.until from.old fault from.new) (O.known out.old) (O.known out.new)) }
    ensures source { RisesWhere (R.faults from.old) (R.faults from.new) (IsCallFailed result) }
    ensures write { HasCause (O.known out.old) (O.known out.new) (result ≡ Err ReceiveFault.Write) }
{
    let mut reading = Reading::new(bounds);
    'answers: loop {
        if reading.gives(collector) {
            write_next(collector, feed, tally, lines, out)?;
            continue;
        }
        lines.flush(out)?;
        if reading.has_ended() {
            return Ok(reading.word());
        }
        let number = reading.taken();
        let taken = reading.read_on(collector, reader, from)?;
        note(tally, number, taken);
    }
}

// Counts what was answered to the datagram with this number, if one came.
fn note(tally: &mut ReportCounts, number: u64, taken: Option<Taken>)
    requires { answered (totals_in tally.old) < 2 ^ 62 }
    ensures { tally.new ≡ noted_if tally.old number taken }
{
    if let Some(taken) = taken {
        tally.note(number, taken);
    }
}

// Gives the next item to the feed, counts it, and puts its lines behind those that are gathered.
fn write_next<O: Sink>(
    collector: &mut Collector,
    feed: &mut Feed,
    tally: &mut ReportCounts,
    lines: &mut LineWriter,
    out: &mut O,
) -> Result<(), WriteFault>
    requires is_ready { ready collector.old ≡ true }
    requires in_order { feed.old.calls ≡ collector.old.next }
    requires counted { items_in tally.old.sums ≡ collector.old.next }
    ensures collector { collector.new ≡ after_item collector.old }
    ensures next { WritesNext result collector.old feed.old feed.new tally.old tally.new lines.old lines.new (O.known out.old) (O.known out.new) }
    ensures cause { HasCause (O.known out.old) (O.known out.new) (IsErr result) }
{
    let Some(given) = collector.next() else {
        unreachable!()
    };
    let step = feed.step(given);
    tally.count(&step.item);
    lines.put_step(out, &step)
}
