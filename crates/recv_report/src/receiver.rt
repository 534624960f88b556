//! Receivers side by side.

ghost use Rattle.std.specs.Prelude.{ℕ, ◌≡◌, ◌<◌, ◌≤◌, ◌↔◌, IsTrue, not, length, slice_index_or, All, IfOk, Err};
ghost use Rattle.std.specs.List.{flat_map};
ghost use Rattle.drm_links.specs.Known.{HasCause};
ghost use Rattle.drm_links.specs.Sink.{WritesWhole};
ghost use Rattle.recv_reading.specs.declared.options.ReceiveOptions.{ReceiveOptions};
ghost use Rattle.recv_report.specs.Receivers.{IsSeat, IsReceiver, IsReceiverReady, HasReceiverEnded, IsReceiverDone, is_failed, clean_of, text_of, receiver_rules};
ghost use Rattle.recv_report.specs.Received.{LinkReportEnds};

use crate::one_receiver::{Ended, Options, receive_one, report_link};
use crate::stop::ReceiveError;
use dcp_collect::Collector;
use drm_bits::{NoMemory, zeros};
use drm_links::{LONGEST_DATAGRAM, Link, Sink, WriteFault, write_all};
use mod_feed::Feed;
use recv_reading::ReceiveOptions;
use report_text::{ReportBuffer, Totals};
use std::alloc::Global;
use std::thread;
use std::thread::Threads;

/// A receiver: its link, what it keeps, and how it ended.
#[derive(Drop)]
pub struct Receiver<L: Link> {
    pub link: L,
    pub collector: Collector,
    pub feed: Feed,
    pub options: Options,
    pub buffer: Vec<u8>,
    pub text: ReportBuffer,
    pub ended: Option<Ended>,
}

/// The most receivers of a run, each with a thread.
const MOST_THREADS: usize = 16;

/// What a receiver keeps, taken before it has a link.
#[derive(Drop)]
pub struct Seat {
    pub collector: Collector,
    pub options: Options,
    pub buffer: Vec<u8>,
    pub text: ReportBuffer,
}

/// The seat of a receiver, under the number of its feed.
pub fn seat_for(alloc: Global, rules: &ReceiveOptions, feed: u8) -> Result<Seat, NoMemory>
    requires at_least_one { 1 ≤ rules.now.window }
    requires within_limit { rules.now.window ≤ 64 }
    ensures { IfOk result (IsSeat rules.now feed) }
{
    let collector = Collector::make(alloc, rules.window, rules.reach, rules.first)?;
    let buffer = zeros(alloc, LONGEST_DATAGRAM)?;
    Ok(Seat {
        collector,
        options: Options {
            feed,
            frames: rules.frames,
            idle: rules.idle,
            limit: rules.limit,
        },
        buffer,
        text: ReportBuffer::new(alloc),
    })
}

/// The receiver of this link that has this seat.
pub fn seated<L: Link>(seat: Seat, link: L) -> Receiver<L>
    ensures receiver { (rules : ReceiveOptions) (feed : ℕ) → IsSeat rules feed seat → IsReceiver rules feed result }
    ensures link { result.link ≡ link }
{
    let Seat {
        collector,
        options,
        buffer,
        text,
    } = seat;
    Receiver {
        link,
        collector,
        feed: Feed::new(),
        options,
        buffer,
        text,
        ended: None,
    }
}

/// A receiver of this link, under the number of its feed.
pub fn receiver_for<L: Link>(
    alloc: Global,
    rules: &ReceiveOptions,
    feed: u8,
    link: L,
) -> Result<Receiver<L>, NoMemory>
    requires at_least_one { 1 ≤ rules.now.window }
    requires within_limit { rules.now.window ≤ 64 }
    ensures receiver { IfOk result (IsReceiver rules.now feed) }
    ensures link { IfOk result (λ receiver. receiver.link ≡ link) }
{
    let seat = seat_for(alloc, rules, feed)?;
    Ok(seated(seat, link))
}

fn run_one<L: Link>(alloc: Global, receiver: &mut Receiver<L>)
    requires { IsReceiverReady receiver.old }
    ensures { HasReceiverEnded L.known receiver.old receiver.new }
{
    let ended = receive_one(
        alloc,
        &mut receiver.collector,
        &mut receiver.feed,
        &mut receiver.link,
        &receiver.options,
        receiver.buffer.as_mut_slice(),
        &mut receiver.text,
    );
    receiver.ended = Some(ended);
}

/// Runs a receiver whose report goes to `out` as it comes, and not into its text. Answers the totals of what came.
pub fn run_live<L: Link, O: Sink>(
    alloc: Global,
    receiver: &mut Receiver<L>,
    out: &mut O,
) -> Result<Totals, ReceiveError>
    requires { IsReceiverReady receiver.old }
    ensures ended { LinkReportEnds (receiver_rules receiver.old) receiver.old.options.feed
        (L.known receiver.old.link) (L.known receiver.new.link) (O.known out.old) (O.known out.new) result }
    ensures memory { result ≡ Err ReceiveError.NoMemory → out.new ≡ out.old }
    ensures link { HasCause (L.known receiver.old.link) (L.known receiver.new.link) (result ≡ Err ReceiveError.Link) }
    ensures write { HasCause (O.known out.old) (O.known out.new) (result ≡ Err ReceiveError.Write) }
{
    report_link(
        alloc,
        &mut receiver.collector,
        &mut receiver.feed,
        &mut receiver.link,
        &receiver.options,
        receiver.buffer.as_mut_slice(),
        out,
    )
}

/// Runs all receivers, in threads.
pub fn run_all<R: Threads + Sync, L: Link + Send>(
    rt: &R,
    alloc: Global,
    receivers: &mut [Receiver<L>],
)
    requires { All IsReceiverReady receivers.old }
    ensures { (k : ℕ) (d : _) → k < length receivers.old → HasReceiverEnded L.known (slice_index_or receivers.old k d) (slice_index_or receivers.new k d) }
{
    thread::for_each_mut(
        rt,
        receivers,
        MOST_THREADS,
        &|_, receiver| run_one(alloc, receiver),
    );
}

/// Whether no receiver's link failed.
pub(crate) fn none_failed<L: Link>(receivers: &[Receiver<L>]) -> bool
    ensures { IsTrue result ↔ All (λ receiver. IsTrue (not (is_failed receiver.ended))) receivers.now }
{
    receivers.iter().all(|receiver| !has_failed(receiver))
}

fn has_failed<L: Link>(receiver: &Receiver<L>) -> bool
    ensures { result ≡ is_failed receiver.now.ended }
{
    matches!(receiver.ended, Some(Ended::LinkFailed))
}

/// Whether each receiver's report is whole, and its text complete.
pub(crate) fn all_done<L: Link>(receivers: &[Receiver<L>]) -> bool
    ensures { IsTrue result ↔ All IsReceiverDone receivers.now }
{
    receivers.iter().all(|receiver| is_done(receiver))
}

fn is_done<L: Link>(receiver: &Receiver<L>) -> bool
    ensures { IsTrue result ↔ IsReceiverDone receiver.now }
{
    match receiver.ended {
        Some(Ended::Done { clean: _ }) => receiver.text.is_complete(),
        _ => false,
    }
}

/// Whether no receiver's report has a missing or bad line.
pub(crate) fn all_clean<L: Link>(receivers: &[Receiver<L>]) -> bool
    ensures { IsTrue result ↔ All (λ receiver. IsTrue (clean_of receiver)) receivers.now }
{
    receivers.iter().all(|receiver| is_clean(receiver))
}

fn is_clean<L: Link>(receiver: &Receiver<L>) -> bool
    ensures { result ≡ clean_of receiver.now }
{
    match receiver.ended {
        Some(Ended::Done { clean }) => clean,
        _ => false,
    }
}

/// Writes the texts of all receivers, in their order.
pub(crate) fn write_texts<L: Link, O: Sink>(
    receivers: &[Receiver<L>],
    out: &mut O,
) -> Result<(), WriteFault>
    ensures { WritesWhole result (O.known out.old) (O.known out.new) (flat_map (λ receiver. text_of receiver) receivers.now) }
{
    for receiver in receivers {
        write_all(out, receiver.text.bytes())?;
    }
    Ok(())
}
