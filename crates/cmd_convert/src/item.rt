//! What a collector gives, converted.

ghost use Rattle.std.specs.Prelude.{◌≡◌, ◌+◌, ◌<◌, ◌^◌, true, length, MatchOption, Some, None, Err};
ghost use Rattle.drm_links.specs.Known.{HasCause};
ghost use Rattle.dcp_af.specs.Faults.{IsFault};
ghost use Rattle.dcp_collect.specs.CollectorState.{ready, after_item};
ghost use Rattle.dcp_collect.specs.View.{item_of};
ghost use Rattle.dcp_collect.specs.WholePackets.{IsAfIfWhole};
ghost use Rattle.mod_feed.specs.Items.{number_of};
ghost use Rattle.cmd_convert.specs.Converted.{ConvertsNext};
ghost use Rattle.dcp_sender.specs.Packets.{IsAny};
ghost use Rattle.cmd_convert.specs.Steps.{ConvertsOne, ConvertsPacket};

use crate::naming::{Progress, name};
use dcp_af::{AfFault, read_af};
use dcp_collect::{Collector, Out};
use dcp_sender::{PacketSender, sequence};
use drm_links::Sink;
use mod_feed::{BadFault, FeedItem};
use report_text::LineWriter;

/// Why no more is converted.
#[derive(Clone, Copy, Debug, PartialEq, Eq)]
pub(crate) enum ItemError {
    Write,
    /// The packet with this number is too long for the carry.
    PacketSize(u64),
}

/// Writes a packet under the carry, or names what is said in its place. The packet with number 0 has the first sequence
/// number.
pub(crate) fn convert_item<O: Sink, E: Sink>(
    cutter: &mut PacketSender,
    first: u16,
    given: Out<'_>,
    progress: &mut Progress,
    lines: &mut LineWriter,
    out: &mut O,
    err: &mut E,
) -> Result<(), ItemError>
    requires within_limit { progress.old.given < 2 ^ 62 }
    requires in_range { number_of (item_of given) < 2 ^ 62 }
    requires whole { IsAfIfWhole given }
    ensures one { ConvertsOne result cutter.old first (item_of given.entry) progress.old progress.new
        (O.known out.old) (O.known out.new) (E.known err.old) (E.known err.new) }
    ensures carry { cutter.new ≡ cutter.old }
    ensures cause { HasCause (O.known out.old) (O.known out.new) (result ≡ Err ItemError.Write) }
{
    match given {
        Out::Packet {
            index,
            bytes,
            whole,
        } => convert_packet(
            cutter, first, index, bytes, whole, progress, lines, out, err,
        ),
        Out::Lost { index, had, of } => {
            name(err, lines, progress, FeedItem::Missing { index, had, of });
            Ok(())
        }
        Out::Damaged { index } => {
            let fault = BadFault::Code;
            name(err, lines, progress, FeedItem::Bad { index, fault });
            Ok(())
        }
    }
}

/// Converts the next item of a collector.
pub(crate) fn convert_next<O: Sink, E: Sink>(
    collector: &mut Collector,
    cutter: &mut PacketSender,
    progress: &mut Progress,
    lines: &mut LineWriter,
    out: &mut O,
    err: &mut E,
) -> Result<(), ItemError>
    requires is_ready { ready collector.old ≡ true }
    requires counted { progress.old.given ≡ collector.old.next }
    ensures collector { collector.new ≡ after_item collector.old }
    ensures next { ConvertsNext result cutter.old collector.old progress.old progress.new
        (O.known out.old) (O.known out.new) (E.known err.old) (E.known err.new) }
    ensures carry { cutter.new ≡ cutter.old }
    ensures cause { HasCause (O.known out.old) (O.known out.new) (result ≡ Err ItemError.Write) }
{
    let first = collector.first().unwrap_or(0);
    let Some(given) = collector.next() else {
        unreachable!()
    };
    convert_item(cutter, first, given, progress, lines, out, err)
}

fn convert_packet<O: Sink, E: Sink>(
    cutter: &mut PacketSender,
    first: u16,
    index: u64,
    bytes: &[u8],
    whole: bool,
    progress: &mut Progress,
    lines: &mut LineWriter,
    out: &mut O,
    err: &mut E,
) -> Result<(), ItemError>
    requires within_limit { progress.old.given < 2 ^ 62 }
    requires in_range { index < 2 ^ 62 }
    requires whole { whole ≡ true → IsAny bytes.now }
    ensures one { ConvertsPacket result cutter.old first index bytes.now progress.old progress.new
        (O.known out.old) (O.known out.new) (E.known err.old) (E.known err.new) }
    ensures carry { cutter.new ≡ cutter.old }
    ensures cause { HasCause (O.known out.old) (O.known out.new) (result ≡ Err ItemError.Write) }
{
    if let Some(fault) = fault_of(bytes, whole) {
        let fault = BadFault::Af(fault);
        name(err, lines, progress, FeedItem::Bad { index, fault });
        return Ok(());
    }
    if cutter.is_too_long(bytes.len()) {
        return Err(ItemError::PacketSize(index));
    }
    match cutter.write(sequence(first, index), bytes, out) {
        Ok(()) => {
            progress.given += 1;
            Ok(())
        }
        Err(_) => Err(ItemError::Write),
    }
}

// Why bytes are no AF packet: none where they are one. What came whole was read before.
fn fault_of(bytes: &[u8], whole: bool) -> Option<AfFault>
    requires { whole ≡ true → IsAny bytes.now }
    ensures { MatchOption result (IsAny bytes.now) (λ fault. IsFault fault bytes.now) }
{
    if whole {
        return None;
    }
    match read_af(bytes) {
        Ok(_) => None,
        Err(fault) => Some(fault),
    }
}
