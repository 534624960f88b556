//! Hearing, and passing on each item as soon as it is ready.

ghost use Rattle.std.specs.Prelude.{ℕ, List, ◌≡◌, ◌*◌, ◌<◌, ◌≤◌, ◌++◌, length, true, false};
ghost use Rattle.dcp_collect.specs.CollectorState.{made};
ghost use Rattle.dcp_collect.specs.declared.taken.Taken.{Taken};
ghost use Rattle.dcp_collect.specs.Runs.{CollectorItem};
ghost use Rattle.dcp_pft.specs.Limits.{most_fragments};
ghost use Rattle.drm_links.specs.Link.{Answer};
ghost use Rattle.drm_links.specs.Calls.{NoneUp};
ghost use Rattle.recv_reading.specs.declared.options.ReceiveOptions.{ReceiveOptions};
ghost use Rattle.recv_reading.specs.First.{KeepsFirst};
ghost use Rattle.recv_reading.specs.State.{ahead};
ghost use Rattle.recv_reading.specs.ReadingReached.{ReadingReached, HasReached, ReadingWaits};
ghost use Rattle.drm_gate.specs.Gateway.{AreGateOptionsInRange, rules_of, AllUp};
ghost use Rattle.drm_gate.specs.Hearing.{HearsOn};
ghost use Rattle.drm_gate.specs.Run.{GateRun, CountsOver, SomeUp, most_taken};

use crate::gate::{GateEnded, GateOptions};
use crate::item::pass_next;
use crate::relay::Relay;
use crate::tally::Tally;
use dcp_collect::Collector;
use dcp_sender::PacketSender;
use drm_links::Came;
use recv_reading::{Bounds, Reading};

/// Hears until no more is heard, or no link is left, and passes on all that comes of it.
pub(crate) fn pass_on<R: Relay>(
    collector: &mut Collector,
    sender: &mut PacketSender,
    relay: &mut R,
    options: &GateOptions,
    buffer: &mut [u8],
) -> GateEnded
    requires buffer { 65536 ≤ length buffer.old }
    requires options { AreGateOptionsInRange options.now }
    requires window { 1 ≤ collector.old.window }
    requires collector { collector.old ≡ made collector.old.window collector.old.reach collector.old.first }
    requires links { (1 ≤ length (R.up relay.old)) × (length (R.up relay.old) ≤ 16) }
    requires up { AllUp (R.up relay.old) }
    ensures { GateRun (rules_of collector.old options.now) sender.old
        (R.up relay.old) (R.up relay.new) (λ events. R.happened events relay.old relay.new) result }
{
    let mut tally = Tally::new();
    let mut reading = Reading::new(Bounds {
        frames: options.frames,
        idle: options.idle,
        limit: u64::from(options.limit),
    });
    'answers: loop {
        if reading.gives(collector) {
            pass_next(collector, sender, &mut tally, relay);
            if none_up(relay) {
                return GateEnded::ToFailed;
            }
            continue;
        }
        if reading.has_ended() {
            return passed_all(&tally, relay);
        }
        if !hear(&mut reading, collector, relay, buffer) {
            return GateEnded::FromFailed;
        }
    }
}

// Hears one answer more, unless as many datagrams were taken as are allowed, and says whether it didn't fail.
fn hear<R: Relay>(
    reading: &mut Reading,
    collector: &mut Collector,
    relay: &mut R,
    buffer: &mut [u8],
) -> bool
    requires waits { ReadingWaits reading.old collector.old }
    requires reached { HasReached reading.old collector.old }
    requires buffer { 65536 ≤ length buffer.old }
    ensures hears { (rules : ReceiveOptions) (answers : List Answer) (taken : List Taken) (during more : List CollectorItem)
        → ReadingReached rules answers taken during more reading.old collector.old
        → HearsOn result rules answers taken (during ++ more) reading.new collector.new (λ events. R.happened events relay.old relay.new) }
    ensures less { result ≡ true → ahead reading.new collector.new < ahead reading.old collector.old }
    ensures first { KeepsFirst collector.old collector.new }
    ensures up { R.up relay.new ≡ R.up relay.old }
    ensures buffer { length buffer.new ≡ length buffer.old }
{
    if reading.stops_at_limit(collector) {
        return true;
    }
    match relay.recv(buffer) {
        Came::Datagram(len) => {
            let _ = reading.take(collector, &buffer[..len]);
            true
        }
        Came::Idle => {
            reading.idle(collector);
            true
        }
        Came::Failed => false,
    }
}

// How a gateway ended that passed on all, and counted this for each link that hasn't failed.
fn passed_all<R: Relay>(tally: &Tally, relay: &R) -> GateEnded
    requires sent { tally.now.sent ≤ most_fragments * most_taken }
    requires links { length (R.up relay.now) ≤ 16 }
    ensures { CountsOver (R.up relay.now) tally.now result }
{
    if all_up(relay) {
        GateEnded::Done(tally.over(relay.len() as u64))
    } else {
        GateEnded::SomeFailed
    }
}

// Whether each link has failed.
fn none_up<R: Relay>(relay: &R) -> bool
    ensures yes { result ≡ true → NoneUp (R.up relay.now) }
    ensures no { result ≡ false → SomeUp (R.up relay.now) }
{
    for k in 0..relay.len() {
        if relay.is_up(k) {
            return false;
        }
    }
    true
}

// Whether no link has failed.
fn all_up<R: Relay>(relay: &R) -> bool
    ensures yes { result ≡ true → AllUp (R.up relay.now) }
    ensures no { result ≡ false → AllUp (R.up relay.now) → ⊥ }
{
    for k in 0..relay.len() {
        if !relay.is_up(k) {
            return false;
        }
    }
    true
}
