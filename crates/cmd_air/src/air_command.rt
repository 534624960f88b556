//! The command `air`.

ghost use Rattle.std.specs.Prelude.{ℕ, ◌≡◌, ◌<◌, ◌≤◌, ◌⊎◌, ◌++◌, [], ◌∷◌, List, length, vec_len, All, IfOk, OnOk, Err};
ghost use Rattle.drm_links.specs.Known.{HasCause};
ghost use Rattle.law_delivery.specs.Sent.{IsSent};
ghost use Rattle.plan_script.specs.Script.{IsDelivery, fragment_count};
ghost use Rattle.drm_timeline.specs.Numbers as numbers;
ghost use Rattle.drm_server.specs.Datagrams.{HasDatagrams};
ghost use Rattle.cmd_faults.specs.declared.fault.Fault.{Fault};
ghost use Rattle.recv_report.specs.Receivers.{AreReceivers};
ghost use Rattle.cmd_air.specs.Feeds.{BringsFeed, BringFeeds};
ghost use Rattle.cmd_air.specs.Air.{AirRun, AreFeeds, AreAired, air_rules};
ghost use Rattle.cmd_receive.specs.Receive.{WritesReports};

use cmd_faults::Fault;
use cmd_load::{read_schedule, read_script_named, script_fault};
use cmd_receive::ending;
use drm_bits::NoMemory;
use drm_links::{MemLink, Shelf, Sink};
use drm_schedule::Schedule;
use drm_server::Server;
use drm_timeline::frame_count;
use law_collect::one_run;
use plan_script::{Delivery, Script};
use recv_reading::ReceiveOptions;
use recv_report::{Receiver, laws_of_deliveries, receiver_for, reports_follow, run_all, settle};
use std::alloc::Global;
use std::thread::Threads;

/// Reads a schedule and a script, gives each feed of the script the datagrams that it delivers, and writes the reports of
/// its receivers, which work in threads of their own. Answers whether no frame is missing or bad.
pub fn air<R: Threads + Sync, S: Shelf, O: Sink>(
    rt: &R,
    alloc: Global,
    name: &str,
    script: &str,
    window: u8,
    shelf: &mut S,
    out: &mut O,
) -> Result<bool, Fault>
    requires at_least_one { 1 ≤ window }
    requires within_limit { window ≤ 64 }
    ensures run { AirRun name.now script.now window result
        S.known shelf.old shelf.new O.known out.old out.new }
{
    let plan = read_schedule(alloc, shelf, name)?;
    let script = match read_script_named(alloc, shelf, script, &plan) {
        Ok(script) => script,
        Err(fault) => return Err(script_fault(fault)),
    };
    air_over(rt, alloc, &plan, &script, window, out)
}

/// Gives each feed of a script the datagrams that it delivers of a schedule, and writes the reports of its receivers, which
/// work in threads of their own. Answers whether no frame is missing or bad.
pub fn air_over<R: Threads + Sync, O: Sink>(
    rt: &R,
    alloc: Global,
    plan: &Schedule,
    script: &Script,
    window: u8,
    out: &mut O,
) -> Result<bool, Fault>
    requires at_least_one { 1 ≤ window }
    requires within_limit { window ≤ 64 }
    requires feeds { AreFeeds plan.now script.now }
    ensures writes { WritesReports (AreAired plan.now window script.now) result O.known out.old out.new }
    ensures kind { (fault : Fault) → result ≡ Err fault → (fault ≡ Fault.NoMemory) ⊎ (fault ≡ Fault.Write) }
    ensures cause { HasCause (O.known out.old) (O.known out.new) (result ≡ Err Fault.Write) }
{
    // For their clauses alone: what a schedule, a report, a delivery and a run of a collector keep to. The calls do nothing.
    plan.always_valid();
    reports_follow();
    laws_of_deliveries();
    one_run();
    let mut receivers = feed_all(alloc, plan, script, window)?;
    run_all(rt, alloc, receivers.as_mut_slice());
    ending(settle(receivers.as_slice(), out))
}

// A receiver for each feed.
fn feed_all(
    alloc: Global,
    plan: &Schedule,
    script: &Script,
    window: u8,
) -> Result<Vec<Receiver<MemLink>>, NoMemory>
    requires at_least_one { 1 ≤ window }
    requires within_limit { window ≤ 64 }
    requires feeds { AreFeeds plan.now script.now }
    ensures same_count { IfOk result (λ receivers. vec_len receivers ≡ length script.now) }
    ensures receivers { IfOk result (λ receivers. AreReceivers (air_rules plan.now window) (length script.now) receivers.items) }
    ensures feeds { IfOk result (λ receivers. BringFeeds plan.now script.now receivers.items) }
{
    let rules = rules_for(plan, window);
    let mut server = Server::make(alloc, plan)?;
    let mut receivers = Vec::new(alloc);
    for k in 0..script.feeds() {
        let link = link_for(alloc, &mut server, script.deliveries(k))?;
        let receiver = receiver_for(alloc, &rules, k as u8 + 1, link)?;
        let Ok(()) = receivers.push(receiver) else {
            return Err(NoMemory);
        };
    }
    Ok(receivers)
}

// A feed is read by the greatest reach, the schedule's first sequence number and all its frames, and ends where nothing is
// left.
fn rules_for(plan: &Schedule, window: u8) -> ReceiveOptions
    ensures { result ≡ air_rules plan.now window }
{
    ReceiveOptions {
        window,
        reach: 32_767,
        first: Some(plan.seq()),
        frames: Some(u64::from(frame_count(plan))),
        idle: 1,
        limit: u32::MAX,
    }
}

// A link that brings the datagrams of these deliveries.
fn link_for(
    alloc: Global,
    server: &mut Server<'_>,
    deliveries: &[Delivery],
) -> Result<MemLink, NoMemory>
    requires each { All (IsDelivery server.old.base) deliveries.now }
    requires own { server.old.plan ≡ server.old.base }
    ensures link { IfOk result (BringsFeed server.old.base deliveries.now) }
    ensures schedule { server.new.base ≡ server.old.base }
    ensures own { server.new.plan ≡ server.new.base }
{
    let mut link = MemLink::make(alloc, &[], &[], 0)?;
    for delivery in deliveries {
        deliver(alloc, server, *delivery, &mut link)?;
    }
    Ok(link)
}

// Brings the datagram of a delivery behind all others.
fn deliver(
    alloc: Global,
    server: &mut Server<'_>,
    delivery: Delivery,
    link: &mut MemLink,
) -> Result<(), NoMemory>
    requires delivery { IsDelivery server.old.base delivery }
    requires own { server.old.plan ≡ server.old.base }
    ensures brought { OnOk result ((datagram : List ℕ) × IsSent server.old.base (delivery.packet, delivery.fragment) datagram
        × (link.new ≡ record link.old { coming = link.old.coming ++ datagram ∷ [] })) }
    ensures schedule { server.new.base ≡ server.old.base }
    ensures own { server.new.plan ≡ server.new.base }
{
    load_own(server, delivery.packet);
    // For its clause alone: the frame has as many datagrams as a script counts.
    datagrams_are_counted(server);
    link.bring(alloc, server.datagram(delivery.fragment))
}

// Loads a frame, where it isn't the one that is loaded.
fn load_own(server: &mut Server<'_>, t: u32)
    requires within { t < numbers.frame_count server.old.base }
    requires own { server.old.plan ≡ server.old.base }
    ensures { server.new ≡ record { base = server.old.base; plan = server.old.base; frame = t } }
{
    if server.frame() != t {
        server.load(t);
    }
}

// The frame that is loaded has as many datagrams as a script counts.
fn datagrams_are_counted(server: &Server<'_>)
    ensures { HasDatagrams server.now.plan server.now.frame (fragment_count server.now.plan server.now.frame) }
{
    // For its clauses alone: they say how long the packet is.
    let _ = server.packet();
}
