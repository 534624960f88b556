//! The item of what a collector gives.

ghost use Rattle.std.specs.Prelude.{ℕ, ◌≡◌, List, true, IfOk, IfErr};
ghost use Rattle.dcp_af.specs.Packet.{AfPacket, IsAf};
ghost use Rattle.dcp_collect.specs.WholePackets.{IsAfIfWhole};
ghost use Rattle.dcp_collect.specs.View.{item_of as given_of};
ghost use Rattle.dcp_collect.specs.Runs.{Packet};
ghost use Rattle.mod_feed.specs.Items.{item_of, CarriesNone, IsItemOf, IsReadItem};

use crate::{BadFault, FeedItem};
use dcp_af::{payload_of, read_af};
use dcp_collect::Out;
use mdi_items::read_mdi;

/// The item of what a collector gives.
pub(crate) fn read_item<'a>(out: Out<'a>) -> FeedItem<'a>
    requires { IsAfIfWhole out }
    ensures item { IsItemOf (given_of out.entry) (item_of result) }
    ensures read { IsReadItem result }
{
    match out {
        Out::Packet {
            index,
            bytes,
            whole,
        } => match read_payload(bytes, whole) {
            Ok(payload) => item_of_payload(index, payload),
            Err(fault) => FeedItem::Bad { index, fault },
        },
        Out::Lost { index, had, of } => FeedItem::Missing { index, had, of },
        Out::Damaged { index } => FeedItem::Bad {
            index,
            fault: BadFault::Code,
        },
    }
}

// The item of a packet with this payload.
fn item_of_payload(index: u64, payload: &[u8]) -> FeedItem<'_>
    ensures item { (packet : List ℕ) → (af : AfPacket) → IsAf af packet → af.payload ≡ payload.now
        → IsItemOf (Packet index packet) (item_of result) }
    ensures read { IsReadItem result }
{
    match read_mdi(payload) {
        Ok(view) => FeedItem::Frame { index, view },
        Err(fault) => FeedItem::Bad {
            index,
            fault: BadFault::Mdi(fault),
        },
    }
}

// The payload of a packet. One that came whole was read as an AF packet when it came, and isn't judged again.
fn read_payload(packet: &[u8], whole: bool) -> Result<&[u8], BadFault>
    requires known { whole ≡ true → (af : AfPacket) × IsAf af packet.now }
    ensures carried { IfOk result (λ payload. (af : AfPacket) × IsAf af packet.now × (af.payload ≡ payload.now)) }
    ensures fault { IfErr result (λ fault. CarriesNone fault packet.now) }
{
    if whole {
        return Ok(payload_of(packet));
    }
    match read_af(packet) {
        Ok(af) => Ok(af.payload),
        Err(fault) => Err(BadFault::Af(fault)),
    }
}
