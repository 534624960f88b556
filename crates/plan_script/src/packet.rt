//! The packets of a schedule: how many datagrams carry each, and of how many bytes.

ghost use Rattle.std.specs.Prelude.{◌≡◌, ◌<◌, ◌^◌};
ghost use Rattle.drm_schedule.specs.declared.plan.Plan.{Plan};
ghost use Rattle.plan_script.specs.Script.{fragment_count, delivery_size, delivery};
ghost use Rattle.plan_script.specs.Steps.{IsPacket};

use crate::delivery::Delivery;
use dcp_pft::{Shape, cut_for, datagram_len, datagrams};
use drm_schedule::Schedule;
use drm_timeline::packet_len;

/// A packet of a schedule, its bytes, and how it is cut, where it isn't carried whole.
#[derive(Clone, Copy)]
pub struct SchedulePacket {
    pub number: u32,
    pub len: usize,
    pub cut: Option<Shape>,
}

impl SchedulePacket {
    /// The packet with this number.
    pub fn of(plan: &Schedule, number: u32) -> SchedulePacket
        ensures packet { IsPacket plan.now result }
        ensures number { result.number ≡ number }
        ensures in_range { result.len < 2 ^ 16 }
    {
        // For its clause alone: the schedule is valid.
        plan.always_valid();
        let len = packet_len(plan, number);
        let cut = cut_for(plan.carry(), len);
        SchedulePacket { number, len, cut }
    }

    /// How many datagrams carry it.
    pub fn count(&self) -> u32
        ensures { (plan : Plan) → IsPacket plan self.now → result ≡ fragment_count plan self.now.number }
    {
        datagrams(self.cut)
    }

    /// Its datagram `i`.
    pub fn delivery(&self, i: u32) -> Delivery
        ensures { result ≡ delivery self.now.number i }
    {
        Delivery {
            packet: self.number,
            fragment: i,
        }
    }

    /// The bytes of its datagram `i`.
    pub fn size(&self, i: u32) -> u64
        requires { self.now.len < 2 ^ 16 }
        ensures size { (plan : Plan) → IsPacket plan self.now → result ≡ delivery_size plan (delivery self.now.number i) }
        ensures in_range { result < 2 ^ 17 }
    {
        datagram_len(self.cut, self.len, i)
    }
}
