//! The feeds that lines give, one after another.

ghost use Rattle.std.specs.Prelude.{◌≡◌, ◌+◌, ◌-◌, ◌<◌, ◌≤◌, ◌^◌, ◌∷◌, [], false, true, reverse, length, None, OnOk};
ghost use Rattle.std.specs.List.{flat_map, range_with_len};
ghost use Rattle.drm_schedule.specs.declared.plan.Plan.{Plan};
ghost use Rattle.plan_script.specs.Script.{all_of, delivered, delivery, delivery_size, ended, in_schedule};
ghost use Rattle.plan_script.specs.Steps.{AreCounted, FeedBegins, IsPacket, KeepsPackets, ReadsScript, begun, with_all, pushed, is_full, feeds_in};

use crate::delivery::Delivery;
use crate::fault::{ScriptFault, fault_at_line};
use crate::line::Delivers;
use crate::packet::SchedulePacket;
use crate::script::Script;
use drm_bits::NoMemory;
use drm_schedule::{OwnedList, Reason, Schedule};
use std::alloc::Global;

/// The most feeds of a script, without the last one.
const MOST_CLOSED: usize = 15;

/// The most deliveries of a script, over all feeds.
const MOST_DELIVERIES: u32 = 100_000;

/// The most bytes of their datagrams.
const MOST_BYTES: u64 = 268_435_456;

/// The feeds that a later one ended and the last one, and how many deliveries and bytes they have together.
#[derive(Drop)]
pub struct Feeds {
    pub closed: OwnedList<OwnedList<Delivery>>,
    pub current: Option<OwnedList<Delivery>>,
    pub count: u32,
    pub bytes: u64,
}

impl Feeds {
    /// No feed.
    pub fn new(alloc: Global) -> Feeds
        ensures counted { (plan : Plan) → AreCounted plan result }
        ensures none { feeds_in result ≡ [] }
    {
        Feeds {
            closed: OwnedList::new(alloc),
            current: None,
            count: 0,
            bytes: 0,
        }
    }

    /// One more feed.
    pub fn begin(&mut self, alloc: Global, n: u32) -> Result<(), ScriptFault>
        requires { length self.old.closed ≤ 15 }
        ensures { FeedBegins result n self.new (begun self.old) }
    {
        if let Some(feed) = self.current.replace(OwnedList::new(alloc)) {
            if self.closed.len() >= MOST_CLOSED {
                return Err(fault_at_line(n, Reason::TooLong));
            }
            self.closed.push(feed)?;
        }
        Ok(())
    }

    /// The script of these feeds, at the end of a text of `n` lines.
    pub fn finish(self, n: u32) -> Result<Script, ScriptFault>
        requires open { self.current ≡ None → self.closed ≡ [] }
        requires lines { n < 2 ^ 32 - 1 }
        ensures { ReadsScript result (ended n (feeds_in self)) }
    {
        let Feeds {
            closed,
            current,
            ..
        } = self;
        match current {
            None => Err(fault_at_line(n + 1, Reason::Missing)),
            Some(feed) => {
                let mut feeds = closed;
                feeds.push(feed)?;
                Ok(Script::new(feeds))
            }
        }
    }

    fn push(&mut self, delivery: Delivery) -> Result<(), NoMemory>
        ensures { OnOk result (self.new ≡ pushed delivery self.old) }
    {
        match &mut self.current {
            Some(feed) => feed.push(delivery),
            None => Ok(()),
        }
    }

    // One more delivery, of so many bytes.
    fn put(&mut self, n: u32, delivery: Delivery, size: u64) -> Result<(), ScriptFault>
        requires fits { is_full self.old ≡ false }
        requires in_range { size < 2 ^ 17 }
        ensures { (plan : Plan) → size ≡ delivery_size plan delivery
            → KeepsPackets result n self.new (with_all plan (delivery ∷ []) self.old) }
    {
        if self.count >= MOST_DELIVERIES || self.bytes + size > MOST_BYTES {
            return Err(fault_at_line(n, Reason::TooLong));
        }
        self.count += 1;
        self.bytes += size;
        Ok(self.push(delivery)?)
    }

    // Fragment `i` of a packet.
    fn put_fragment(&mut self, n: u32, packet: &SchedulePacket, i: u32) -> Result<(), ScriptFault>
        requires fits { is_full self.old ≡ false }
        requires in_range { packet.now.len < 2 ^ 16 }
        ensures { (plan : Plan) → IsPacket plan packet.now
            → KeepsPackets result n self.new (with_all plan (delivery packet.now.number i ∷ []) self.old) }
    {
        self.put(n, packet.delivery(i), packet.size(i))
    }

    // Fragment `i` of the packet with this number.
    fn put_one(&mut self, plan: &Schedule, n: u32, number: u32, i: u32) -> Result<(), ScriptFault>
        requires fits { is_full self.old ≡ false }
        ensures { KeepsPackets result n self.new (with_all plan.now (delivery number i ∷ []) self.old) }
    {
        self.put_fragment(n, &SchedulePacket::of(plan, number), i)
    }

    // All fragments of a packet, in their order.
    fn put_packet(&mut self, plan: &Schedule, n: u32, number: u32) -> Result<(), ScriptFault>
        requires fits { is_full self.old ≡ false }
        ensures { KeepsPackets result n self.new (with_all plan.now (all_of plan.now number) self.old) }
    {
        let packet = SchedulePacket::of(plan, number);
        let count = packet.count();
        for i in 0..count {
            self.put_fragment(n, &packet, i)?;
        }
        Ok(())
    }

    // All fragments of a packet, the last one first.
    fn put_back(&mut self, plan: &Schedule, n: u32, number: u32) -> Result<(), ScriptFault>
        requires fits { is_full self.old ≡ false }
        ensures { KeepsPackets result n self.new (with_all plan.now (reverse (all_of plan.now number)) self.old) }
    {
        let packet = SchedulePacket::of(plan, number);
        let mut left = packet.count();
        while left > 0 {
            left -= 1;
            self.put_fragment(n, &packet, left)?;
        }
        Ok(())
    }

    // All fragments of several packets: of so many from this one on.
    fn put_packets(
        &mut self,
        plan: &Schedule,
        n: u32,
        first: u32,
        end: u32,
    ) -> Result<(), ScriptFault>
        requires fits { is_full self.old ≡ false }
        ensures { KeepsPackets result n self.new
            (with_all plan.now (flat_map (all_of plan.now) (range_with_len first (end - first))) self.old) }
    {
        for number in first..end {
            self.put_packet(plan, n, number)?;
        }
        Ok(())
    }

    /// What a line delivers, for the last feed.
    #[tactic(auto, unfolding(crate::specs::Script::delivered, crate::specs::Script::in_schedule))]
    pub fn deliver(
        &mut self,
        plan: &Schedule,
        n: u32,
        delivers: Delivers,
    ) -> Result<(), ScriptFault>
        requires fits { is_full self.old ≡ false }
        requires within { in_schedule plan.now delivers ≡ true }
        ensures { KeepsPackets result n self.new (with_all plan.now (delivered plan.now delivers) self.old) }
    {
        // For its clause alone: the schedule is valid.
        plan.always_valid();
        match delivers {
            Delivers::Take { packet, fragment } => self.put_one(plan, n, packet, fragment),
            Delivers::Packet(packet) => self.put_packet(plan, n, packet),
            Delivers::Packets { first, last } => self.put_packets(plan, n, first, last + 1),
            Delivers::Back(packet) => self.put_back(plan, n, packet),
        }
    }
}
