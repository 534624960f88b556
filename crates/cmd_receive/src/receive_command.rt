//! The command `receive` with addresses.

ghost use Rattle.std.specs.Prelude.{◌≡◌, ◌≤◌, List, length, vec_len, vec_capacity, IfOk, IfErr, Err};
ghost use Rattle.drm_links.specs.Known.{HasCause, CountsCall, KnownThrough, IfBothKnown};
ghost use Rattle.drm_links.specs.Dock.{DockOpens, Over, DockKnownThrough, after_openings};
ghost use Rattle.recv_reading.specs.Options.{AreInRange};
ghost use Rattle.drm_links.specs.Listed.{AreListed};
ghost use Rattle.drm_links.specs.Gathering.{after_closes};
ghost use Rattle.drm_links.specs.Members.{HaveGone};
ghost use Rattle.cmd_receive.specs.Receive.{ReceiveRun};
ghost use Rattle.cmd_receive.specs.Counted.{CountedLink};
ghost use Rattle.recv_report.specs.Receivers.{IsReceiver, AreReceivers};
ghost use Rattle.cmd_receive.specs.Opening.{HaveLinks, EndsOpening, StopsOpening, members_of};
ghost use Rattle.cmd_receive.specs.Stopping.{ending_of, live_totals, clean_ending};

use cmd_faults::Fault;
use drm_links::{Address, Addresses, Dock, Link, Opened, Sink};
use recv_reading::ReceiveOptions;
use recv_report::{
    ReceiveError, Receiver, in_time_is_unbroken, reports_follow, run_all, run_live, seat_for,
    seated, settle,
};
use report_text::Totals;
use std::alloc::Global;
use std::thread::Threads;

/// Opens a link at each address and reads each until it has read enough. The report of one link is written as it is read;
/// several are read in threads of their own, and their reports written at the end, in the order of the addresses. Then the links
/// are closed. Answers whether no frame is missing or bad.
pub fn receive<R: Threads + Sync, D: Dock, O: Sink>(
    rt: &R,
    alloc: Global,
    rules: &ReceiveOptions,
    addresses: &Addresses,
    dock: &mut D,
    out: &mut O,
) -> Result<bool, Fault>
where
    D::L: Link + Send,
    requires rules { AreInRange rules.now }
    requires listed { AreListed addresses.now }
    ensures run { ReceiveRun rules.now addresses.now result
        D.known dock.old dock.new O.known out.old out.new }
{
    if addresses.len() == 1 {
        return clean(link_totals(alloc, rules, *addresses.get(0), dock, out));
    }
    // For their clauses alone: what a report says of a delivery. The calls do nothing.
    reports_follow();
    in_time_is_unbroken();
    let mut receivers = open_all(alloc, rules, addresses, dock)?;
    run_all(rt, alloc, receivers.as_mut_slice());
    let settled = settle(receivers.as_slice(), out);
    close_all(dock, addresses, receivers);
    ending(settled)
}

/// Receives so at one address, and answers the totals of what came.
pub fn link_totals<D: Dock, O: Sink>(
    alloc: Global,
    rules: &ReceiveOptions,
    at: Address,
    dock: &mut D,
    out: &mut O,
) -> Result<Totals, Fault>
    requires { AreInRange rules.now }
    ensures run { CountedLink rules.now at result D.known dock.old dock.new O.known out.old out.new }
{
    // For their clauses alone: what a report says of a delivery. The calls do nothing.
    reports_follow();
    in_time_is_unbroken();
    let mut receiver = open_one(alloc, rules, 1, at, dock)?;
    let received = run_live(alloc, &mut receiver, out);
    let Receiver { link, .. } = receiver;
    dock.close(at, link);
    live_totals(received)
}

// Takes the memory for receivers of these addresses.
fn room_for<L: Link>(alloc: Global, addresses: &Addresses) -> Result<Vec<Receiver<L>>, Fault>
    ensures none { IfOk result (λ room. vec_len room ≡ 0) }
    ensures capacity { IfOk result (λ room. length addresses.now ≤ vec_capacity room) }
    ensures ends { IfErr result (λ fault. fault ≡ Fault.NoMemory) }
{
    match Vec::with_capacity(alloc, addresses.len()) {
        Ok(room) => Ok(room),
        Err(_) => Err(Fault::NoMemory),
    }
}

// Opens the links at all addresses, in their order, and makes their receivers. Where that ends early, the links that were opened are
// closed.
fn open_all<D: Dock>(
    alloc: Global,
    rules: &ReceiveOptions,
    addresses: &Addresses,
    dock: &mut D,
) -> Result<Vec<Receiver<D::L>>, Fault>
    requires rules { AreInRange rules.now }
    requires listed { AreListed addresses.now }
    ensures same_count { IfOk result (λ receivers. vec_len receivers ≡ length addresses.now) }
    ensures receivers { IfOk result (λ receivers. AreReceivers rules.now (length addresses.now) receivers.items) }
    ensures opened { IfOk result (λ _. KnownThrough (D.known dock.old) (D.known dock.new)
        (λ before after. after ≡ after_openings addresses.now before)) }
    ensures links { IfOk result (λ receivers. DockKnownThrough (D.known dock.old) (D.known dock.new) (λ contents.
        HaveLinks D.L.known contents addresses.now receivers.items)) }
    ensures ends { IfErr result EndsOpening }
    ensures stopped { IfErr result (λ fault. KnownThrough (D.known dock.old) (D.known dock.new)
        (StopsOpening addresses.now fault)) }
    ensures cause { HasCause (D.known dock.old) (D.known dock.new) (result ≡ Err Fault.Link) }
{
    let mut receivers = room_for(alloc, addresses)?;
    for k in 0..addresses.len() {
        match open_one(alloc, rules, k as u8 + 1, *addresses.get(k), dock) {
            Ok(receiver) => receivers.push_reserved(receiver),
            Err(fault) => {
                close_all(dock, addresses, receivers);
                return Err(fault);
            }
        }
    }
    Ok(receivers)
}

// Takes the memory of a receiver, opens the link at its address, and makes it.
fn open_one<D: Dock>(
    alloc: Global,
    rules: &ReceiveOptions,
    feed: u8,
    at: Address,
    dock: &mut D,
) -> Result<Receiver<D::L>, Fault>
    requires rules { AreInRange rules.now }
    ensures receiver { IfOk result (IsReceiver rules.now feed) }
    ensures opened { IfOk result (λ receiver.
        IfBothKnown (D.known dock.old) (D.known dock.new) (DockOpens D.L.known at (Opened.Link receiver.link))) }
    ensures failed { result ≡ Err Fault.Link
        → IfBothKnown (D.known dock.old) (D.known dock.new) (DockOpens D.L.known at Opened.Failed) }
    ensures untouched { result ≡ Err Fault.NoMemory → dock.new ≡ dock.old }
    ensures counts_call { (result ≡ Err Fault.NoMemory → ⊥)
        → CountsCall (λ contents. contents.calls) (D.known dock.old) (D.known dock.new) }
    ensures ends { IfErr result EndsOpening }
    ensures cause { HasCause (D.known dock.old) (D.known dock.new) (result ≡ Err Fault.Link) }
{
    let seat = seat_for(alloc, rules, feed)?;
    match dock.bind(at) {
        Opened::Link(link) => Ok(seated(seat, link)),
        Opened::Failed => Err(Fault::Link),
    }
}

// Closes the links of these receivers, in the order of their addresses.
fn close_all<D: Dock>(dock: &mut D, addresses: &Addresses, receivers: Vec<Receiver<D::L>>)
    requires { vec_len receivers ≤ length addresses.now }
    ensures closed { KnownThrough (D.known dock.old) (D.known dock.new) (λ before after.
        (overs : List Over) → HaveGone D.L.known (members_of receivers.items) overs → after ≡ after_closes overs addresses.now before) }
    ensures cause { (D.known dock.new).faults ≡ (D.known dock.old).faults }
{
    let mut k = 0;
    for receiver in receivers {
        let Receiver { link, .. } = receiver;
        dock.close(*addresses.get(k), link);
        k += 1;
    }
}

// The totals of a run whose one receiver ends so.
fn live_totals(received: Result<Totals, ReceiveError>) -> Result<Totals, Fault>
    ensures { result ≡ live_totals received }
{
    match received {
        Ok(totals) => Ok(totals),
        Err(ReceiveError::Link) => Err(Fault::Link),
        Err(ReceiveError::Write) => Err(Fault::Write),
        Err(ReceiveError::NoMemory) => Err(Fault::NoMemory),
    }
}

// How a run ends that has these totals.
pub(crate) fn clean(counted: Result<Totals, Fault>) -> Result<bool, Fault>
    ensures { result ≡ clean_ending counted }
{
    match counted {
        Ok(totals) => Ok(totals.is_clean()),
        Err(fault) => Err(fault),
    }
}

// How a run ends whose receivers end so.
pub fn ending(stopped: Result<bool, ReceiveError>) -> Result<bool, Fault>
    ensures { result ≡ ending_of stopped }
{
    match stopped {
        Ok(clean) => Ok(clean),
        Err(ReceiveError::Link) => Err(Fault::Link),
        Err(ReceiveError::Write) => Err(Fault::Write),
        Err(ReceiveError::NoMemory) => Err(Fault::NoMemory),
    }
}
