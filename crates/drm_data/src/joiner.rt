//! Packets become units again.

ghost use Rattle.std.specs.Prelude.{◌≡◌, ◌<◌, ◌≤◌, IfOk, is_some};
ghost use Rattle.std.specs.Borrow.{sem};
ghost use Rattle.drm_data.specs.Joining.{made, closed, TakesEvent};
ghost use Rattle.drm_data.specs.Lending.{JoinerAfterEvent};

use crate::unit_buffer::{JoinStep, UnitBuffer};
use crate::{Joined, read_packet};
use drm_bits::NoMemory;
use std::alloc::Global;
use std::marker::Model;

/// Joins the packets of one id to units. What it needs of memory it takes when it is made.
#[derive(Drop)]
pub struct Joiner {
    id: u8,
    length: u8,
    room: UnitBuffer,
}

impl Model for Joiner {
    ghost use Rattle.drm_data.specs.Joining.{JoinerState};
    ghost use Rattle.drm_data.specs.Room.{state, JoinerInvariant};

    ghost Value = { JoinerState };

    ghost view = { state };

    ghost invariant = { JoinerInvariant };
}

impl Joiner {
    /// A joiner for packets of this id with data fields of `length` bytes.
    pub fn make(alloc: Global, id: u8, length: u8) -> Result<Joiner, NoMemory>
        requires id { id < 4 }
        requires length { 1 ≤ length }
        ensures { IfOk result (λ joiner. joiner ≡ made id length) }
    {
        let room = UnitBuffer::make(alloc)?;
        Ok(Joiner { id, length, room })
    }

    /// Takes the bytes of the next packet.
    pub fn packet(&mut self, bytes: &[u8]) -> Joined<'_>
        ensures takes { TakesEvent self.old bytes.now result }
        ensures* after { sem 𝓛 (JoinerAfterEvent bytes.now self.entry) }
    {
        let packet = match read_packet(bytes, self.length) {
            Ok(packet) => packet,
            Err(fault) => {
                let cut = self.room.close();
                return Joined::Refused { fault, cut };
            }
        };
        if packet.id != self.id {
            return Joined::Nothing;
        }
        match self.room.join(&packet) {
            JoinStep::Nothing => Joined::Nothing,
            JoinStep::Unit(len) => Joined::Unit(self.room.front(len)),
            JoinStep::Cut => Joined::Cut,
            JoinStep::CutUnit(len) => Joined::CutUnit(self.room.front(len)),
        }
    }

    /// Something is missing here. Answers whether a unit was open, which is cut.
    pub fn gap(&mut self) -> bool
        ensures cut { result ≡ is_some self.old.begun }
        ensures after { self.new ≡ closed self.old }
    {
        self.room.close()
    }

    /// Nothing more comes. Answers whether a unit was open, which is cut.
    pub fn end(&mut self) -> bool
        ensures cut { result ≡ is_some self.old.begun }
        ensures after { self.new ≡ closed self.old }
    {
        self.room.close()
    }
}
