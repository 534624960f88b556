//! The server of a schedule.

ghost use Rattle.std.specs.Prelude.{ℕ, ◌≡◌, ◌+◌, ◌<◌, ◌≤◌, length, IfOk, OnOk, OnErr, IsErr};
ghost use Rattle.dcp_pft.specs.Limits.{longest_packet, most_packet, most_fragments};
ghost use Rattle.drm_timeline.specs.Numbers.{frame_count, packet_size};
ghost use Rattle.live_streams.specs.Live.{piece_at, live_schedule};
ghost use Rattle.drm_server.specs.ServerState.{only_at};
ghost use Rattle.drm_server.specs.Stretch.{first_in, frames_in};
ghost use Rattle.drm_server.specs.Frames.{IsPacketAt};
ghost use Rattle.drm_server.specs.Datagrams.{HasDatagrams, HasDatagram, IsDatagramAt};

use crate::Stretch;
use crate::loaded::EncodedFrame;
use dcp_sender::MOST_ROOM;
use drm_bits::{NoMemory, zeros};
use drm_schedule::{Live, Schedule};
use std::alloc::Global;
use std::marker::Model;

/// Gives the packets of a schedule and the datagrams that carry them, one frame at a time. Frames are counted from 0 at the
/// schedule's start. All memory is taken when it is made.
#[derive(Drop)]
pub struct Server<'a> {
    pub(crate) loaded: EncodedFrame<'a>,
    // Where the datagrams of frames wait until a sink is called once for many.
    pub(crate) waiting: Vec<u8>,
}

impl<'a> Model for Server<'a> {
    ghost use Rattle.std.specs.Prelude.{◌≡◌, length};
    ghost use Rattle.dcp_sender.specs.CarriesText.{most_room};
    ghost use Rattle.drm_server.specs.ServerState.{ServerState};

    ghost Value = { ServerState };

    ghost view = { λ s. s.loaded };

    ghost invariant = { λ s. length s.waiting.items ≡ most_room };
}

impl<'a> Server<'a> {
    /// A server of this schedule, which has frame 0 loaded.
    pub fn make(alloc: Global, plan: &'a Schedule) -> Result<Server<'a>, NoMemory>
        ensures { IfOk result (λ server. server ≡ record { base = plan.now; plan = plan.now; frame = 0 }) }
    {
        let loaded = EncodedFrame::first(alloc, plan)?;
        let waiting = zeros(alloc, MOST_ROOM)?;
        Ok(Server { loaded, waiting })
    }

    /// The schedule itself.
    pub fn schedule(&self) -> &Schedule
        ensures { result.now ≡ self.now.base }
    {
        self.loaded.schedule()
    }

    /// How many frames there are.
    pub fn frames(&self) -> u32
        ensures frames { result ≡ frame_count self.now.base }
        ensures at_least_one { 1 ≤ result }
        ensures within_limit { result ≤ 3000000 }
    {
        self.loaded.frames()
    }

    /// How many of them are in this stretch.
    pub fn frames_in(&self, stretch: Stretch) -> u32
        ensures frames { result ≡ frames_in stretch self.now.base }
        ensures within { (n : ℕ) → n < result → first_in stretch + n < frame_count self.now.base }
        ensures within_limit { (n : ℕ) → n < result → first_in stretch + n < 3000000 }
    {
        self.loaded.frames_in(stretch)
    }

    /// The frame that is loaded.
    pub fn frame(&self) -> u32
        ensures { result ≡ self.now.frame }
    {
        self.loaded.frame()
    }

    /// Loads frame `t`.
    pub fn load(&mut self, t: u32)
        requires { t < frame_count self.old.base }
        ensures { self.new ≡ record { base = self.old.base; plan = self.old.base; frame = t } }
    {
        self.loaded.load(t);
    }

    /// Loads frame `t` with this piece as the bytes of its live streams.
    pub fn load_live(&mut self, t: u32, live: &Live, piece: &[u8])
        requires frame { t < frame_count self.old.base }
        requires piece { length piece.now ≡ piece_at live.now self.old.base t }
        ensures { self.new ≡ record {
          base = self.old.base;
          plan = live_schedule live.now (only_at t piece.now) self.old.base;
          frame = t;
        } }
    {
        self.loaded.load_live(t, live, piece);
    }

    /// The packet of the frame that is loaded.
    pub fn packet(&self) -> &[u8]
        ensures packet { IsPacketAt self.now.plan self.now.frame result.now }
        ensures len { length result.now ≡ packet_size self.now.plan self.now.frame }
        ensures in_range { length result.now ≤ most_packet self.now.plan.carry }
        ensures within { length result.now ≤ longest_packet }
    {
        self.loaded.packet()
    }

    /// How many datagrams carry the packet: one, where it is carried whole, else its fragments.
    pub fn fragments(&self) -> u32
        ensures datagrams { HasDatagrams self.now.plan self.now.frame result }
        ensures at_least_one { 1 ≤ result }
        ensures within_limit { result ≤ most_fragments }
    {
        self.loaded.datagrams().count()
    }

    /// The datagram with this number, from 0, of the frame that is loaded.
    pub fn datagram(&self, i: u32) -> &[u8]
        requires within { HasDatagram self.now.plan self.now.frame i }
        ensures datagram { IsDatagramAt self.now.plan self.now.frame i result.now }
        ensures in_range { length result.now ≤ most_packet self.now.plan.carry }
        ensures within { length result.now ≤ longest_packet }
    {
        self.loaded.datagrams().get(i)
    }
}
