//! One frame of a schedule, ready to be sent.

ghost use Rattle.std.specs.Prelude.{ℕ, List, [], ◌≡◌, ◌+◌, ◌<◌, ◌≤◌, length, take, IfOk};
ghost use Rattle.dcp_pft.specs.Limits.{longest_packet, most_packet};
ghost use Rattle.drm_timeline.specs.Numbers as numbers;
ghost use Rattle.drm_timeline.specs.Numbers.{packet_size};
ghost use Rattle.live_streams.specs.Live.{piece_at, live_schedule};
ghost use Rattle.drm_server.specs.ServerState.{only_at};
ghost use Rattle.drm_server.specs.Stretch.{first_in, frames_in};
ghost use Rattle.drm_server.specs.Frames.{IsPacketAt};
ghost use Rattle.drm_server.specs.Datagrams.{CarriesFrame};

use crate::Stretch;
use crate::packet::write_packet;
use crate::payload::PayloadBuffers;
use dcp_pft::{LONGEST_PACKET, cut_for};
use dcp_sender::CutPacket;
use drm_bits::{NoMemory, zeros};
use drm_schedule::{Live, Schedule};
use drm_timeline::{frame_count, sequence_number};
use live_streams::{MOST_PIECE, piece_len};
use std::alloc::Global;
use std::marker::Model;

/// A frame of a schedule: its packet, and the datagrams that carry it, which are made once.
#[derive(Drop)]
pub struct EncodedFrame<'a> {
    plan: &'a Schedule,
    frame: u32,
    // The streams that have bytes which came from outside, and these bytes, at the front.
    live: Live,
    piece: Vec<u8>,
    piece_len: usize,
    // The packet stands at the front.
    buffer: Vec<u8>,
    len: usize,
    datagrams: CutPacket,
    buffers: Box<PayloadBuffers>,
}

impl<'a> Model for EncodedFrame<'a> {
    ghost use Rattle.std.specs.Prelude.{◌≡◌, ◌<◌, ◌≤◌, length, take};
    ghost use Rattle.dcp_pft.specs.Limits.{longest_packet, most_packet};
    ghost use Rattle.drm_timeline.specs.Numbers.{frame_count, packet_size};
    ghost use Rattle.drm_server.specs.Frames.{IsPacketAt};
    ghost use Rattle.drm_server.specs.Datagrams.{CarriesFrame};
    ghost use Rattle.live_streams.specs.Live.{live_schedule};
    ghost use Rattle.drm_server.specs.ServerState.{ServerState, only_at};

    ghost Value = { ServerState };

    ghost view = { λ s. record {
      base = s.plan.now;
      plan = live_schedule s.live (only_at s.frame (take s.piece_len s.piece.items)) s.plan.now;
      frame = s.frame;
    } };

    ghost invariant = { λ s. (s.frame < frame_count s.plan.now)
        × (length s.buffer.items ≡ longest_packet)
        × (s.len ≤ longest_packet)
        × IsPacketAt (live_schedule s.live (only_at s.frame (take s.piece_len s.piece.items)) s.plan.now) s.frame (take s.len s.buffer.items)
        × (s.len ≡ packet_size s.plan.now s.frame)
        × (s.len ≤ most_packet s.plan.now.carry)
        × (length s.piece.items ≡ 32760)
        × CarriesFrame (live_schedule s.live (only_at s.frame (take s.piece_len s.piece.items)) s.plan.now) s.frame s.datagrams };
}

impl<'a> EncodedFrame<'a> {
    /// Frame 0 of this schedule.
    pub fn first(alloc: Global, plan: &'a Schedule) -> Result<EncodedFrame<'a>, NoMemory>
        ensures { IfOk result (λ loaded. loaded ≡ record { base = plan.now; plan = plan.now; frame = 0 }) }
    {
        let buffer = zeros(alloc, LONGEST_PACKET)?;
        let datagrams = CutPacket::make(alloc)?;
        let piece = zeros(alloc, MOST_PIECE)?;
        let Ok(buffers) = Box::new(alloc, PayloadBuffers::new()) else {
            return Err(NoMemory);
        };
        Ok(EncodedFrame::in_room(plan, buffer, datagrams, piece, buffers))
    }

    // Frame 0, in room for the longest packet, its datagrams, and the longest piece.
    fn in_room(
        plan: &'a Schedule,
        mut buffer: Vec<u8>,
        mut datagrams: CutPacket,
        piece: Vec<u8>,
        mut buffers: Box<PayloadBuffers>,
    ) -> EncodedFrame<'a>
        requires buffer { length buffer.items ≡ longest_packet }
        requires piece { length piece.items ≡ 32760 }
        ensures { result ≡ record { base = plan.now; plan = plan.now; frame = 0 } }
    {
        // For its clause alone: the schedule is valid.
        plan.always_valid();
        let live = Live::none();
        let len = encode(
            plan,
            0,
            &live,
            &[],
            &mut buffer,
            &mut datagrams,
            &mut buffers,
        );
        EncodedFrame {
            plan,
            frame: 0,
            live,
            piece,
            piece_len: 0,
            buffer,
            len,
            datagrams,
            buffers,
        }
    }

    /// The schedule.
    pub fn schedule(&self) -> &Schedule
        ensures { result.now ≡ self.now.base }
    {
        self.plan
    }

    /// How many frames the schedule has.
    pub fn frames(&self) -> u32
        ensures frames { result ≡ numbers.frame_count self.now.base }
        ensures at_least_one { 1 ≤ result }
        ensures within_limit { result ≤ 3000000 }
    {
        frame_count(self.plan)
    }

    /// How many of them are in this stretch.
    pub fn frames_in(&self, stretch: Stretch) -> u32
        ensures frames { result ≡ frames_in stretch self.now.base }
        ensures within { (n : ℕ) → n < result → first_in stretch + n < numbers.frame_count self.now.base }
        ensures within_limit { (n : ℕ) → n < result → first_in stretch + n < 3000000 }
    {
        stretch.frames(self.plan)
    }

    /// The number of the frame.
    pub fn frame(&self) -> u32
        ensures { result ≡ self.now.frame }
    {
        self.frame
    }

    /// Loads frame `t` in its place.
    pub fn load(&mut self, t: u32)
        requires { t < numbers.frame_count self.old.base }
        ensures { self.new ≡ record { base = self.old.base; plan = self.old.base; frame = t } }
    {
        self.load_live(t, &Live::none(), &[]);
    }

    /// Loads frame `t` with this piece as the bytes of its live streams.
    pub fn load_live(&mut self, t: u32, live: &Live, piece: &[u8])
        requires frame { t < numbers.frame_count self.old.base }
        requires piece { length piece.now ≡ piece_at live.now self.old.base t }
        ensures { self.new ≡ record {
          base = self.old.base;
          plan = live_schedule live.now (only_at t piece.now) self.old.base;
          frame = t;
        } }
    {
        // For its clause alone: the schedule is valid.
        self.plan.always_valid();
        // For its clauses alone: they say that there is room for the piece.
        let _ = piece_len(self.plan, live, t);
        self.piece_len = write_front(piece, &mut self.piece);
        self.live = *live;
        self.len = encode(
            self.plan,
            t,
            live,
            piece,
            &mut self.buffer,
            &mut self.datagrams,
            &mut self.buffers,
        );
        self.frame = t;
    }

    /// The packet of the frame.
    pub fn packet(&self) -> &[u8]
        ensures packet { IsPacketAt self.now.plan self.now.frame result.now }
        ensures len { length result.now ≡ packet_size self.now.plan self.now.frame }
        ensures in_range { length result.now ≤ most_packet self.now.plan.carry }
        ensures within { length result.now ≤ longest_packet }
    {
        &self.buffer[..self.len]
    }

    /// The datagrams that carry the packet.
    pub fn datagrams(&self) -> &CutPacket
        ensures { CarriesFrame self.now.plan self.now.frame result.now }
    {
        &self.datagrams
    }
}

// Writes the packet of frame `t`, whose live streams have this piece, cuts it, and gives its length.
fn encode(
    plan: &Schedule,
    t: u32,
    live: &Live,
    piece: &[u8],
    into: &mut [u8],
    datagrams: &mut CutPacket,
    buffers: &mut PayloadBuffers,
) -> usize
    requires frame { t < numbers.frame_count plan.now }
    requires piece { length piece.now ≡ piece_at live.now plan.now t }
    requires room { length into.old ≡ longest_packet }
    ensures packet { IsPacketAt (live_schedule live.now (only_at t piece.now) plan.now) t (take result into.new) }
    ensures len { result ≡ packet_size plan.now t }
    ensures in_range { result ≤ most_packet plan.now.carry }
    ensures within { result ≤ longest_packet }
    ensures room { length into.new ≡ longest_packet }
    ensures datagrams { CarriesFrame (live_schedule live.now (only_at t piece.now) plan.now) t datagrams.new }
{
    // For its clause alone: the schedule is valid.
    plan.always_valid();
    let len = write_packet(plan, t, live, piece, into, buffers);
    let cut = cut_for(plan.carry(), len);
    datagrams.fill(&into[..len], cut, sequence_number(plan, t));
    len
}

// Writes bytes to the front, and gives their number.
fn write_front(bytes: &[u8], into: &mut [u8]) -> usize
    requires { length bytes.now ≤ length into.old }
    ensures front { take result into.new ≡ bytes.now }
    ensures len { result ≡ length bytes.now }
    ensures same_length { length into.new ≡ length into.old }
{
    into[..bytes.len()].copy_from_slice(bytes);
    bytes.len()
}
