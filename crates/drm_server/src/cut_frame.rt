//! One frame of a schedule and how its packet is cut, without parity.

ghost use Rattle.std.specs.Prelude.{ℕ, List, ◌≡◌, ◌<◌, ◌≤◌, length, take, IfOk};
ghost use Rattle.dcp_pft.specs.Limits.{longest_packet, most_packet};
ghost use Rattle.dcp_pft.specs.Carrying.{cut_of};
ghost use Rattle.drm_timeline.specs.Numbers as numbers;
ghost use Rattle.drm_server.specs.Frames.{IsPacketAt};

use crate::packet::write_packet;
use crate::payload::PayloadBuffers;
use dcp_pft::{LONGEST_PACKET, Shape, cut_for};
use drm_bits::{NoMemory, zeros};
use drm_schedule::{Live, Schedule};
use drm_timeline::frame_count;
use std::alloc::Global;
use std::marker::Model;

/// A frame of a schedule: its packet, and how that is cut. These determine its datagrams. No parity is made, so it is cheap to
/// look at, and can't be sent.
#[derive(Drop)]
pub struct CutFrame<'a> {
    plan: &'a Schedule,
    frame: u32,
    // The packet stands at the front.
    buffer: Vec<u8>,
    len: usize,
    // How it is cut, where it isn't carried whole.
    cut: Option<Shape>,
    buffers: Box<PayloadBuffers>,
}

impl<'a> Model for CutFrame<'a> {
    ghost use Rattle.std.specs.Prelude.{◌≡◌, ◌<◌, ◌≤◌, length, take};
    ghost use Rattle.dcp_pft.specs.Limits.{longest_packet, most_packet};
    ghost use Rattle.dcp_pft.specs.Carrying.{cut_of};
    ghost use Rattle.drm_timeline.specs.Numbers.{frame_count};
    ghost use Rattle.drm_server.specs.Frames.{IsPacketAt};
    ghost use Rattle.drm_server.specs.Placed.{PlacedFrame};

    ghost Value = { PlacedFrame };

    ghost view = { λ s. record { plan = s.plan.now; frame = s.frame } };

    ghost invariant = { λ s. (s.frame < frame_count s.plan.now)
        × (length s.buffer.items ≡ longest_packet)
        × (s.len ≤ longest_packet)
        × IsPacketAt s.plan.now s.frame (take s.len s.buffer.items)
        × (s.cut ≡ cut_of s.plan.now.carry s.len)
        × (s.len ≤ most_packet s.plan.now.carry) };
}

impl<'a> CutFrame<'a> {
    /// Frame 0 of this schedule.
    pub fn first(alloc: Global, plan: &'a Schedule) -> Result<CutFrame<'a>, NoMemory>
        ensures { IfOk result (λ placed. placed ≡ record { plan = plan.now; frame = 0 }) }
    {
        let buffer = zeros(alloc, LONGEST_PACKET)?;
        let Ok(buffers) = Box::new(alloc, PayloadBuffers::new()) else {
            return Err(NoMemory);
        };
        Ok(CutFrame::in_room(plan, buffer, buffers))
    }

    // Frame 0, in room for the longest packet.
    fn in_room(
        plan: &'a Schedule,
        mut buffer: Vec<u8>,
        mut buffers: Box<PayloadBuffers>,
    ) -> CutFrame<'a>
        requires { length buffer.items ≡ longest_packet }
        ensures { result ≡ record { plan = plan.now; frame = 0 } }
    {
        // For its clause alone: the schedule is valid.
        plan.always_valid();
        let len = write_own(plan, 0, &mut buffer, &mut buffers);
        CutFrame {
            plan,
            frame: 0,
            buffer,
            len,
            cut: cut_for(plan.carry(), len),
            buffers,
        }
    }

    /// The schedule.
    pub fn schedule(&self) -> &Schedule
        ensures { result.now ≡ self.now.plan }
    {
        self.plan
    }

    /// How many frames the schedule has.
    pub fn frames(&self) -> u32
        ensures frames { result ≡ numbers.frame_count self.now.plan }
        ensures within_limit { result ≤ 3000000 }
    {
        frame_count(self.plan)
    }

    /// Goes to frame `t`.
    pub fn load(&mut self, t: u32)
        requires { t < numbers.frame_count self.old.plan }
        ensures { self.new ≡ record { plan = self.old.plan; frame = t } }
    {
        // For its clause alone: the schedule is valid.
        self.plan.always_valid();
        self.len = write_own(self.plan, t, &mut self.buffer, &mut self.buffers);
        self.cut = cut_for(self.plan.carry(), self.len);
        self.frame = t;
    }

    /// The packet of the frame.
    pub fn packet(&self) -> &[u8]
        ensures packet { IsPacketAt self.now.plan self.now.frame result.now }
        ensures in_range { length result.now ≤ most_packet self.now.plan.carry }
    {
        &self.buffer[..self.len]
    }

    /// How the packet of the frame is cut, where it isn't carried whole.
    pub fn cut(&self) -> Option<Shape>
        ensures { (packet : List ℕ) → IsPacketAt self.now.plan self.now.frame packet
            → result ≡ cut_of self.now.plan.carry (length packet) }
    {
        self.cut
    }
}

// Writes the packet of frame `t`, whose streams have the schedule's own bytes, and gives its length.
fn write_own(plan: &Schedule, t: u32, into: &mut [u8], buffers: &mut PayloadBuffers) -> usize
    requires frame { t < numbers.frame_count plan.now }
    requires room { length into.old ≡ longest_packet }
    ensures packet { IsPacketAt plan.now t (take result into.new) }
    ensures in_range { result ≤ most_packet plan.now.carry }
    ensures within { result ≤ longest_packet }
    ensures at_least_one { 1 ≤ result }
{
    write_packet(plan, t, &Live::none(), &[], into, buffers)
}
