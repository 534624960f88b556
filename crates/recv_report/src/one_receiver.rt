//! One receiver: it reads a link until it has read enough, and writes the report of what came.

ghost use Rattle.std.specs.Prelude.{◌≡◌, ◌≤◌, length, Err};
ghost use Rattle.dcp_collect.specs.CollectorState.{made};
ghost use Rattle.drm_reconfiguration.specs.Tracker.{new_tracker};
ghost use Rattle.drm_links.specs.Known.{HasCause};
ghost use Rattle.recv_report.specs.Received.{rules_of, AreOptionsInRange, ReceiverEndsAs, LinkReportEnds, IfDone};
ghost use Rattle.recv_report.specs.Headline.{Headline, CompleteHeadline};

use crate::reading::{ReceiveFault, write_report};
use crate::report_laws::reports_follow;
use crate::stop::ReceiveError;
use dcp_collect::Collector;
use drm_links::{Link, Sink};
use mod_feed::Feed;
use recv_reading::{Bounds, ReceiveBuffer};
use report_text::Totals;
use std::alloc::Global;

/// By what a receiver goes. Each number is at least 1.
#[derive(Clone, Copy, Debug, PartialEq, Eq)]
pub struct Options {
    /// The number in the first line of its report.
    pub feed: u8,
    /// The number of frames, where it is given; at most 3,000,000.
    pub frames: Option<u64>,
    /// How many idle answers of its link in a row end its report.
    pub idle: u32,
    /// The most datagrams that it takes.
    pub limit: u32,
}

/// How a receiver ended.
#[derive(Clone, Copy, Debug, PartialEq, Eq)]
pub enum Ended {
    /// Its report is whole; `clean` where no frame is missing or bad.
    Done { clean: bool },
    LinkFailed,
    WriteFailed,
    NoMemory,
}

/// Reads a link until it has read enough, and writes the report of what came. Collector and feed are new. An item is written
/// as soon as it is ready. The buffer holds one datagram.
pub fn receive_one<L: Link, O: Sink>(
    alloc: Global,
    collector: &mut Collector,
    feed: &mut Feed,
    link: &mut L,
    options: &Options,
    buffer: &mut [u8],
    out: &mut O,
) -> Ended
    requires buffer { 65536 ≤ length buffer.old }
    requires options { AreOptionsInRange options.now }
    requires window { (1 ≤ collector.old.window) × (collector.old.window ≤ 64) }
    requires collector { collector.old ≡ made collector.old.window collector.old.reach collector.old.first }
    requires feed { feed.old ≡ new_tracker }
    // What was read of the link, and what was written of it.
    ensures ended { ReceiverEndsAs (rules_of collector.old options.now) options.now.feed
        (L.known link.old) (L.known link.new) (O.known out.old) (O.known out.new) result }
    // Whatever delivery of whatever valid schedule came, with whatever foreign datagrams, its report was written; and where
    // each frame was in time, all frames were given.
    ensures headline { IfDone (Headline (rules_of collector.old options.now) options.now.feed
        (L.known link.old) (L.known link.new) (O.known out.old) (O.known out.new)) result }
    ensures complete { IfDone (CompleteHeadline (rules_of collector.old options.now) options.now.feed
        (L.known link.old) (L.known link.new) (O.known out.old) (O.known out.new)) result }
    // All memory is taken before anything is read or written.
    ensures memory { result ≡ Ended.NoMemory → (link.new ≡ link.old) × (out.new ≡ out.old) }
    ensures link { HasCause (L.known link.old) (L.known link.new) (result ≡ Ended.LinkFailed) }
    ensures write { HasCause (O.known out.old) (O.known out.new) (result ≡ Ended.WriteFailed) }
{
    // For its clauses alone: the report is that of the delivery which was read.
    reports_follow();
    match report_link(alloc, collector, feed, link, options, buffer, out) {
        Ok(totals) => Ended::Done {
            clean: totals.is_clean(),
        },
        Err(ReceiveError::Link) => Ended::LinkFailed,
        Err(ReceiveError::Write) => Ended::WriteFailed,
        Err(ReceiveError::NoMemory) => Ended::NoMemory,
    }
}

/// The same, with the totals of what came.
pub(crate) fn report_link<L: Link, O: Sink>(
    alloc: Global,
    collector: &mut Collector,
    feed: &mut Feed,
    link: &mut L,
    options: &Options,
    buffer: &mut [u8],
    out: &mut O,
) -> Result<Totals, ReceiveError>
    requires buffer { 65536 ≤ length buffer.old }
    requires options { AreOptionsInRange options.now }
    requires window { (1 ≤ collector.old.window) × (collector.old.window ≤ 64) }
    requires collector { collector.old ≡ made collector.old.window collector.old.reach collector.old.first }
    requires feed { feed.old ≡ new_tracker }
    ensures ended { LinkReportEnds (rules_of collector.old options.now) options.now.feed
        (L.known link.old) (L.known link.new) (O.known out.old) (O.known out.new) result }
    ensures memory { result ≡ Err ReceiveError.NoMemory → (link.new ≡ link.old) × (out.new ≡ out.old) }
    ensures link { HasCause (L.known link.old) (L.known link.new) (result ≡ Err ReceiveError.Link) }
    ensures write { HasCause (O.known out.old) (O.known out.new) (result ≡ Err ReceiveError.Write) }
{
    let bounds = Bounds {
        frames: options.frames,
        idle: options.idle,
        limit: u64::from(options.limit),
    };
    let mut reader = ReceiveBuffer { bytes: buffer };
    match write_report(
        alloc,
        options.feed,
        bounds,
        collector,
        feed,
        &mut reader,
        link,
        out,
    ) {
        Ok(totals) => Ok(totals),
        Err(ReceiveFault::Source(_)) => Err(ReceiveError::Link),
        Err(ReceiveFault::Write) => Err(ReceiveError::Write),
        Err(ReceiveFault::NoMemory) => Err(ReceiveError::NoMemory),
    }
}
