//! Room for one unit, in which its packets are put one behind another.

ghost use Rattle.std.specs.Prelude.{◌≡◌, ℕ, ◌+◌, ◌≤◌, List, length, take, true, None, IfOk, is_some};
ghost use Rattle.drm_data.specs.Units.{most_unit};
ghost use Rattle.drm_data.specs.Reading.{packet_of};
ghost use Rattle.drm_data.specs.Joining.{goes_on as follows, begun_by, begun_after, answer_after};
ghost use Rattle.drm_data.specs.Room.{begun_in, begun_with, answer_with, answer_new, IsUnitBuffer, said, LiesIn};

use crate::DataPacket;
use drm_bits::{NoMemory, put_at, zeros};
use std::alloc::Global;

/// The most bytes of a unit.
const MOST_UNIT: usize = 65_535;

/// How much of the open unit has come, and the continuity of its last packet.
#[derive(Clone, Copy, Drop)]
pub(crate) struct OpenUnit {
    pub len: usize,
    pub continuity: u8,
}

/// What a packet makes of the unit. The bytes of a unit that is whole stand in front, so many.
#[derive(Drop)]
pub(crate) enum JoinStep {
    Nothing,
    Unit(usize),
    Cut,
    CutUnit(usize),
}

#[derive(Drop)]
pub(crate) struct UnitBuffer {
    pub bytes: Vec<u8>,
    pub begun: Option<OpenUnit>,
}

impl UnitBuffer {
    /// Takes all memory that it ever needs.
    pub(crate) fn make(alloc: Global) -> Result<UnitBuffer, NoMemory>
        ensures room { IfOk result IsUnitBuffer }
        ensures closed { IfOk result (λ r. begun_in r ≡ None) }
    {
        Ok(UnitBuffer {
            bytes: zeros(alloc, MOST_UNIT)?,
            begun: None,
        })
    }

    /// Takes a packet of the id.
    pub(crate) fn join(&mut self, packet: &DataPacket<'_>) -> JoinStep
        requires room { IsUnitBuffer self.old }
        requires in_range { length packet.now.useful.now ≤ 255 }
        ensures begun { begun_in self.new ≡ begun_after (begun_in self.old) (packet_of packet.now) }
        ensures says { said result self.new.bytes.items ≡ answer_after (begun_in self.old) (packet_of packet.now) }
        ensures within { LiesIn result most_unit }
        ensures room { IsUnitBuffer self.new }
    {
        match self.begun {
            None => self.begin(packet, false),
            Some(begun) => {
                if goes_on(begun, packet) {
                    self.add(begun.len, packet)
                } else {
                    self.begin(packet, true)
                }
            }
        }
    }

    // A packet that doesn't go on with an open unit: it begins the next one, or is of none.
    fn begin(&mut self, packet: &DataPacket<'_>, cut: bool) -> JoinStep
        requires room { length self.old.bytes.items ≡ most_unit }
        requires in_range { length packet.now.useful.now ≤ 255 }
        ensures begun { begun_in self.new ≡ begun_by (packet_of packet.now) }
        ensures says { said result self.new.bytes.items ≡ answer_new cut (packet_of packet.now) }
        ensures within { LiesIn result most_unit }
        ensures room { IsUnitBuffer self.new }
    {
        self.begun = None;
        if packet.first {
            match self.add(0, packet) {
                JoinStep::Unit(len) if cut => JoinStep::CutUnit(len),
                JoinStep::Nothing if cut => JoinStep::Cut,
                step => step,
            }
        } else if cut {
            JoinStep::Cut
        } else {
            JoinStep::Nothing
        }
    }

    // Puts the packet's bytes behind the first ones of the unit.
    fn add(&mut self, len: usize, packet: &DataPacket<'_>) -> JoinStep
        requires room { length self.old.bytes.items ≡ most_unit }
        requires fits { len + length packet.now.useful.now ≤ most_unit }
        ensures begun { begun_in self.new ≡ begun_with (take len self.old.bytes.items) (packet_of packet.now) }
        ensures says { said result self.new.bytes.items ≡ answer_with (take len self.old.bytes.items) (packet_of packet.now) }
        ensures within { LiesIn result most_unit }
        ensures room { IsUnitBuffer self.new }
    {
        let end = len + packet.useful.len();
        put_at(&mut self.bytes, len, packet.useful);
        if packet.last {
            self.begun = None;
            JoinStep::Unit(end)
        } else {
            self.begun = Some(OpenUnit {
                len: end,
                continuity: packet.continuity,
            });
            JoinStep::Nothing
        }
    }

    /// Cuts the open unit. Answers whether there was one.
    pub(crate) fn close(&mut self) -> bool
        requires room { IsUnitBuffer self.old }
        ensures cut { result ≡ is_some (begun_in self.old) }
        ensures closed { begun_in self.new ≡ None }
        ensures room { IsUnitBuffer self.new }
    {
        self.begun.take().is_some()
    }

    /// The first bytes in it.
    pub(crate) fn front(&self, len: usize) -> &[u8]
        requires { len ≤ length self.now.bytes.items }
        ensures { result.now ≡ take len self.now.bytes.items }
    {
        &self.bytes[..len]
    }
}

// Whether the packet is the next one of the unit.
fn goes_on(begun: OpenUnit, packet: &DataPacket<'_>) -> bool
    requires within { begun.len ≤ most_unit }
    requires in_range { length packet.now.useful.now ≤ 255 }
    ensures fits { result ≡ true → begun.len + length packet.now.useful.now ≤ most_unit }
    ensures test { (bytes : List ℕ) → length bytes ≡ begun.len
        → result ≡ follows (record { bytes = bytes; continuity = begun.continuity }) (packet_of packet.now) }
{
    !packet.first
        && packet.continuity == begun.continuity.wrapping_add(1) % 8
        && begun.len + packet.useful.len() <= MOST_UNIT
}
