//! What a collector gives, passed on.

ghost use Rattle.std.specs.Prelude.{◌≡◌, ◌<◌, ◌^◌, true, false, length};
ghost use Rattle.dcp_collect.specs.CollectorState.{ready, after_item};
ghost use Rattle.dcp_collect.specs.View.{item_of};
ghost use Rattle.dcp_collect.specs.WholePackets.{IsAfIfWhole};
ghost use Rattle.dcp_collect.specs.Runs.{Packet};
ghost use Rattle.mod_feed.specs.Items.{number_of};
ghost use Rattle.dcp_sender.specs.Packets.{IsAny};
ghost use Rattle.drm_gate.specs.Passing.{IsNone};
ghost use Rattle.drm_gate.specs.Steps.{PassesOne, PassesNext};
ghost use Rattle.drm_gate.specs.Tallies.{items_in};

use crate::tally::Tally;
use dcp_af::read_af;
use dcp_collect::{Collector, Out};
use dcp_sender::{Outlets, PacketSender, sequence};

/// Sends a packet over each link that hasn't failed, and counts it, or counts what is said in its place. The packet with number 0 has
/// the first sequence number.
pub(crate) fn pass<O: Outlets>(
    sender: &mut PacketSender,
    first: u16,
    given: Out<'_>,
    tally: &mut Tally,
    outlets: &mut O,
)
    requires missing { tally.old.missing < 2 ^ 62 }
    requires bad { tally.old.bad < 2 ^ 62 }
    requires large { tally.old.large < 2 ^ 62 }
    requires given { tally.old.given < 2 ^ 62 }
    requires sent { tally.old.sent < 2 ^ 62 }
    requires in_range { number_of (item_of given) < 2 ^ 62 }
    requires whole { IsAfIfWhole given }
    ensures one { PassesOne sender.old first (item_of given.entry) tally.old tally.new
        (O.up outlets.old) (O.up outlets.new) (λ events. O.happened events outlets.old outlets.new) }
    ensures carry { sender.new ≡ sender.old }
{
    match given {
        Out::Packet {
            index,
            bytes,
            whole,
        } => pass_packet(sender, first, index, bytes, whole, tally, outlets),
        Out::Lost { .. } => tally.missing += 1,
        Out::Damaged { .. } => tally.bad += 1,
    }
}

/// Passes on the next item of a collector.
pub(crate) fn pass_next<O: Outlets>(
    collector: &mut Collector,
    sender: &mut PacketSender,
    tally: &mut Tally,
    outlets: &mut O,
)
    requires is_ready { ready collector.old ≡ true }
    requires counted { items_in tally.old ≡ collector.old.next }
    requires few_sent { tally.old.sent < 2 ^ 62 }
    ensures collector { collector.new ≡ after_item collector.old }
    ensures next { PassesNext sender.old collector.old tally.old tally.new
        (O.up outlets.old) (O.up outlets.new) (λ events. O.happened events outlets.old outlets.new) }
    ensures carry { sender.new ≡ sender.old }
{
    let first = collector.first().unwrap_or(0);
    let Some(given) = collector.next() else {
        unreachable!()
    };
    pass(sender, first, given, tally, outlets);
}

fn pass_packet<O: Outlets>(
    sender: &mut PacketSender,
    first: u16,
    index: u64,
    bytes: &[u8],
    whole: bool,
    tally: &mut Tally,
    outlets: &mut O,
)
    requires bad { tally.old.bad < 2 ^ 62 }
    requires large { tally.old.large < 2 ^ 62 }
    requires given { tally.old.given < 2 ^ 62 }
    requires sent { tally.old.sent < 2 ^ 62 }
    requires in_range { index < 2 ^ 62 }
    requires whole { whole ≡ true → IsAny bytes.now }
    ensures one { PassesOne sender.old first (Packet index bytes.now) tally.old tally.new
        (O.up outlets.old) (O.up outlets.new) (λ events. O.happened events outlets.old outlets.new) }
    ensures carry { sender.new ≡ sender.old }
{
    if !is_af(bytes, whole) {
        tally.bad += 1;
        return;
    }
    if sender.is_large(bytes.len()) {
        tally.large += 1;
        return;
    }
    let sent = sender.send(sequence(first, index), bytes, outlets);
    tally.given += 1;
    tally.sent += sent;
}

// Whether bytes are an AF packet. What came whole was read before.
fn is_af(bytes: &[u8], whole: bool) -> bool
    requires { whole ≡ true → IsAny bytes.now }
    ensures yes { result ≡ true → IsAny bytes.now }
    ensures no { result ≡ false → IsNone bytes.now }
{
    if whole {
        return true;
    }
    match read_af(bytes) {
        Ok(_) => true,
        Err(_) => false,
    }
}
