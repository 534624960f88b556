//! The lines of the items that are ready.

ghost use Rattle.std.specs.Prelude.{◌≡◌, ◌≤◌, ◌<◌, ◌^◌, ◌⊎◌, true, false, OnOk, OnErr, IsErr, IfSome};
ghost use Rattle.dcp_collect.specs.CollectorState.{ready, after_item};
ghost use Rattle.report_text.specs.Tallies.{items_in};
ghost use Rattle.recv_reading.specs.State.{is_full};
ghost use Rattle.report_journal.specs.Lines.{HasFed, PrintsNext, JournalPrints, PrintsAll, WritesAll, CountsFirst, GivesRest};

use dcp_collect::Collector;
use drm_bits::NoMemory;
use drm_links::{Sink, WriteFault};
use mod_feed::Feed;
use report_text::{ReportBuffer, ReportCounts, write_step};
use std::alloc::Global;

/// Whether as many items were given as are asked for.
pub(crate) fn is_full(counts: &ReportCounts, frame_limit: Option<u64>) -> bool
    requires { IfSome frame_limit (λ _. items_in counts.now.sums < 2 ^ 63) }
    ensures { result ≡ is_full frame_limit (items_in counts.now.sums) }
{
    match frame_limit {
        Some(frame_limit) => frame_limit <= counts.items(),
        None => false,
    }
}

// Gives the next item to the feed, counts it, and writes its lines.
fn print_next<O: Sink>(
    collector: &mut Collector,
    feed: &mut Feed,
    counts: &mut ReportCounts,
    out: &mut O,
) -> Result<(), WriteFault>
    requires is_ready { ready collector.old ≡ true }
    requires in_order { feed.old.calls ≡ collector.old.next }
    requires counted { items_in counts.old.sums ≡ collector.old.next }
    ensures collector { collector.new ≡ after_item collector.old }
    ensures next { PrintsNext result collector.old feed.old feed.new counts.old counts.new (O.known out.old) (O.known out.new) }
{
    let Some(given) = collector.next() else {
        unreachable!()
    };
    let step = feed.step(given);
    counts.count(&step.item);
    write_step(out, &step)
}

// Prints the items that are ready, up to the number that is asked for.
fn print_ready<O: Sink>(
    collector: &mut Collector,
    feed: &mut Feed,
    counts: &mut ReportCounts,
    frame_limit: Option<u64>,
    out: &mut O,
) -> Result<(), WriteFault>
    requires within_limit { IfSome frame_limit (λ n. n ≤ 3000000) }
    requires fed { HasFed frame_limit collector.old.next feed.old counts.old }
    ensures prints { OnOk result (JournalPrints collector.old collector.new feed.old feed.new counts.old counts.new (O.known out.old) (O.known out.new)) }
    ensures fed { OnOk result (HasFed frame_limit collector.new.next feed.new counts.new) }
    ensures over { OnOk result ((is_full frame_limit (items_in counts.new.sums) ≡ true) ⊎ (ready collector.new ≡ false)) }
    ensures first { OnErr result (CountsFirst frame_limit collector.old collector.new feed.old feed.new counts.old counts.new) }
{
    'items: loop {
        if is_full(counts, frame_limit) || !collector.ready() {
            return Ok(());
        }
        print_next(collector, feed, counts, out)?;
    }
}

// Gives all that is ready.
fn skip_ready(collector: &mut Collector)
    ensures { GivesRest collector.old collector.new }
{
    'past: while let Some(_given) = collector.next() {}
}

// Gives all that is ready, and prints the items up to the number that is asked for.
fn give_ready<O: Sink>(
    collector: &mut Collector,
    feed: &mut Feed,
    counts: &mut ReportCounts,
    frame_limit: Option<u64>,
    out: &mut O,
) -> Result<(), WriteFault>
    requires within_limit { IfSome frame_limit (λ n. n ≤ 3000000) }
    requires fed { HasFed frame_limit collector.old.next feed.old counts.old }
    ensures prints_all { OnOk result (PrintsAll frame_limit collector.old collector.new feed.old feed.new counts.old counts.new (O.known out.old) (O.known out.new)) }
    ensures first { OnErr result (CountsFirst frame_limit collector.old collector.new feed.old feed.new counts.old counts.new) }
{
    print_ready(collector, feed, counts, frame_limit, out)?;
    skip_ready(collector);
    Ok(())
}

/// Gives all that is ready, and puts the lines of the items, up to the number that is asked for, behind the text. Where they
/// find no room there, the text stays as it was.
pub(crate) fn write_ready(
    alloc: Global,
    collector: &mut Collector,
    feed: &mut Feed,
    counts: &mut ReportCounts,
    frame_limit: Option<u64>,
    text: &mut Vec<u8>,
) -> Result<(), NoMemory>
    requires within_limit { IfSome frame_limit (λ n. n ≤ 3000000) }
    requires fed { HasFed frame_limit collector.old.next feed.old counts.old }
    ensures written { OnOk result (WritesAll frame_limit collector.old collector.new feed.old feed.new
        counts.old counts.new text.old.items text.new.items) }
    ensures none { OnErr result (text.new.items ≡ text.old.items) }
    ensures first { OnErr result (CountsFirst frame_limit collector.old collector.new feed.old feed.new counts.old counts.new) }
{
    let mut lines = ReportBuffer::new(alloc);
    let Ok(()) = give_ready(collector, feed, counts, frame_limit, &mut lines) else {
        return Err(NoMemory);
    };
    if !lines.is_complete() {
        return Err(NoMemory);
    }
    text.extend_from_slice(lines.bytes())?;
    Ok(())
}
