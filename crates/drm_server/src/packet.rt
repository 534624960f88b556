//! The packet of a frame.

ghost use Rattle.std.specs.Prelude.{◌≡◌, ◌+◌, ◌<◌, ◌≤◌, length, take};
ghost use Rattle.dcp_pft.specs.Limits.{longest_packet, most_packet};
ghost use Rattle.drm_timeline.specs.Numbers.{frame_count, packet_size};
ghost use Rattle.live_streams.specs.Live.{piece_at, live_schedule};
ghost use Rattle.drm_server.specs.Frames.{IsPacketAt, longest_payload};
ghost use Rattle.drm_server.specs.Placing.{IsPayloadWith};
ghost use Rattle.drm_server.specs.ServerState.{only_at};

use crate::payload::{PayloadBuffers, write_payload};
use dcp_af::write_af;
use drm_schedule::{Live, Schedule};
use drm_timeline::sequence_number;

// The bytes of a packet before its payload.
const HEAD: usize = 10;

/// Writes the packet of frame `t`, whose live streams have this piece, and gives its length. Its block and its fills are written to
/// the rooms first.
pub fn write_packet(
    plan: &Schedule,
    t: u32,
    live: &Live,
    piece: &[u8],
    into: &mut [u8],
    buffers: &mut PayloadBuffers,
) -> usize
    requires frame { t < frame_count plan.now }
    requires piece { length piece.now ≡ piece_at live.now plan.now t }
    requires room { length into.old ≡ longest_packet }
    ensures packet { IsPacketAt (live_schedule live.now (only_at t piece.now) plan.now) t (take result into.new) }
    ensures len { result ≡ packet_size plan.now t }
    ensures in_range { result ≤ most_packet plan.now.carry }
    ensures within { result ≤ longest_packet }
    ensures at_least_one { 1 ≤ result }
    ensures room { length into.new ≡ longest_packet }
{
    // For its clause alone: the schedule is valid.
    plan.always_valid();
    let len = write_first(plan, t, live, piece, &mut into[HEAD..], buffers);
    write_af(sequence_number(plan, t), into, len)
}

// Writes the payload of frame `t` to the front of the room for it, and gives its length.
fn write_first(
    plan: &Schedule,
    t: u32,
    live: &Live,
    piece: &[u8],
    scratch: &mut [u8],
    buffers: &mut PayloadBuffers,
) -> usize
    requires frame { t < frame_count plan.now }
    requires piece { length piece.now ≡ piece_at live.now plan.now t }
    requires room { longest_payload ≤ length scratch.old }
    ensures written { IsPayloadWith live.now piece.now plan.now t (take result scratch.new) }
    ensures len { result + 12 ≡ packet_size plan.now t }
    ensures in_range { result + 12 ≤ most_packet plan.now.carry }
    ensures within { result ≤ longest_payload }
    ensures room { length scratch.new ≡ length scratch.old }
{
    match scratch.first_chunk_mut() {
        Some(payload) => write_payload(plan, t, live, piece, payload, buffers),
        None => unreachable!(),
    }
}
