//! The payload of a frame's packet.

ghost use Rattle.std.specs.Prelude.{ℕ, ◌≡◌, ◌+◌, ◌-◌, ◌*◌, ◌/◌, ◌%◌, ◌^◌, ◌==◌, ◌<◌, ◌≤◌, ◌++◌, [], length, take, option_map, if◌then◌else◌, Option, Some};
ghost use Rattle.drm_fac.specs.declared.fac.Fac.{Fac};
ghost use Rattle.drm_schedule.specs.Ranges.{ConfigInLines};
ghost use Rattle.drm_timeline.specs.Standing.{config_of};
ghost use Rattle.drm_timeline.specs.Numbers.{frame_count, packet_size};
ghost use Rattle.drm_timeline.specs.FastAccess.{fac_of};
ghost use Rattle.drm_timeline.specs.Description.{description_of};
ghost use Rattle.mdi_items.specs.Names.{sdc_, str};
ghost use Rattle.mdi_items.specs.Written.{written, behind, next, lender, spelled, spelling, block_piece, AreHeadItems, head_length};
ghost use Rattle.mdi_items.specs.RoundTrip.{BlockBytes, block_pieces};
ghost use Rattle.live_streams.specs.Live.{piece_at};
ghost use Rattle.dcp_pft.specs.Limits.{most_packet};
ghost use Rattle.drm_server.specs.Frames.{IsBlockAt, HasBlockWhere, longest_payload};
ghost use Rattle.drm_server.specs.Placing.{IsNewWriter, IsBefore, HoldsIn, IsPayloadWith};

use crate::stream::{MOST, write_streams};
use dcp_pft::LONGEST_PACKET;
use drm_schedule::{Config, Live, Schedule};
use drm_timeline::{block_into, config_of_frame, description, fac_at, packet_len};
use mdi_items::MdiWriter;

/// The most bytes of a payload: a packet has 12 around it.
pub const MOST_PAYLOAD: usize = LONGEST_PACKET - 12;

/// Room for what is written on its way into a payload.
#[derive(Drop)]
pub struct PayloadBuffers {
    // The block of a super frame.
    block: [u8; 1026],
    // A stream of one byte over and over.
    fill: [u8; MOST],
}

impl PayloadBuffers {
    /// New rooms.
    pub fn new() -> PayloadBuffers {
        PayloadBuffers {
            block: [0; 1026],
            fill: [0; MOST],
        }
    }
}

/// Writes the payload of the packet of frame `t`, whose live streams have this piece, and gives its length.
pub fn write_payload(
    plan: &Schedule,
    t: u32,
    live: &Live,
    piece: &[u8],
    into: &mut [u8; MOST_PAYLOAD],
    buffers: &mut PayloadBuffers,
) -> usize
    requires frame { t < frame_count plan.now }
    requires piece { length piece.now ≡ piece_at live.now plan.now t }
    ensures written { IsPayloadWith live.now piece.now plan.now t (take result into.new) }
    ensures len { result + 12 ≡ packet_size plan.now t }
    ensures in_range { result + 12 ≤ most_packet plan.now.carry }
    ensures within { result ≤ longest_payload }
    ensures length { length into.new ≡ longest_payload }
{
    let config = config_of_frame(plan, t);
    // For its clauses alone: they say that all fits.
    let _ = packet_len(plan, t);
    let mut writer = MdiWriter::new(into);
    write_head(&mut writer, plan, t, config);
    write_block_where(&mut writer, plan, t, config, &mut buffers.block);
    let frame = t - 3 * config.start;
    write_streams(
        &mut writer,
        config.streams.as_slice(),
        frame,
        live,
        piece,
        &mut buffers.fill,
    );
    let room = writer.room();
    total(into) - room
}

// How many bytes there are. A function of its own, since behind the writer their number is known only in a call.
fn total(bytes: &[u8; MOST_PAYLOAD]) -> usize
    ensures whole_length { result ≡ length bytes.now }
    ensures known { result ≡ longest_payload }
{
    bytes.len()
}

// Writes what stands at the front of each frame.
fn write_head(writer: &mut MdiWriter<'_>, plan: &Schedule, t: u32, config: &Config)
    requires new { IsNewWriter (head_length (length config.now.streams)) writer.old }
    requires fits { ConfigInLines config.now }
    ensures written { (fac : Fac) × (fac_of plan.now t ≡ Some fac)
        × AreHeadItems ((plan.now.dlfc + t) % 2 ^ 32) fac (description_of config.now) config.now.mode (written writer.new) }
    ensures remaining { length (behind writer.new) + head_length (length config.now.streams) ≡ length (behind writer.old) }
    ensures next { next writer.new ≡ sdc_ }
    ensures same_reference { lender writer.new ≡ lender writer.old }
{
    let count = plan.dlfc().wrapping_add(t);
    writer.head(count, &fac_at(plan, t), &description(config), config.mode);
}

// Writes the block, which the first frame of a super frame has.
fn write_block_where(
    writer: &mut MdiWriter<'_>,
    plan: &Schedule,
    t: u32,
    config: &Config,
    scratch: &mut [u8; 1026],
)
    requires config { HoldsIn plan.now (t / 3) config.now }
    requires place { IsBefore sdc_ (if t % 3 == 0 then config.now.room + 11 else 0) writer.old }
    ensures written { (block : Option BlockBytes) × HasBlockWhere (t % 3 == 0) plan.now (t / 3) config.now.room block
        × (written writer.new ≡ written writer.old ++ spelling (block_pieces block)) }
    ensures remaining { length (behind writer.new) + (if t % 3 == 0 then config.now.room + 11 else 0) ≡ length (behind writer.old) }
    ensures from { sdc_ ≤ next writer.new }
    ensures to { next writer.new ≤ str 0 }
    ensures same_reference { lender writer.new ≡ lender writer.old }
{
    if t % 3 == 0 {
        write_block(writer, plan, t / 3, config, scratch);
    }
}

// Writes the block of a super frame, by way of this room.
fn write_block(
    writer: &mut MdiWriter<'_>,
    plan: &Schedule,
    sf: u32,
    config: &Config,
    scratch: &mut [u8; 1026],
)
    requires config { HoldsIn plan.now sf config.now }
    requires place { IsBefore sdc_ (config.now.room + 11) writer.old }
    ensures written { (block : BlockBytes) × IsBlockAt plan.now sf config.now.room block
        × (written writer.new ≡ written writer.old ++ spelled (block_piece block.bits block.value)) }
    ensures remaining { length (behind writer.new) + (config.now.room + 11) ≡ length (behind writer.old) }
    ensures next { next writer.new ≡ sdc_ + 1 }
    ensures same_reference { lender writer.new ≡ lender writer.old }
{
    let bits = block_into(plan, sf, scratch);
    writer.block(&scratch[..usize::from(config.room) + 3], bits);
}
