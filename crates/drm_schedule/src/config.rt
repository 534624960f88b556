//! The configurations of a schedule.

ghost use Rattle.std.specs.Prelude.{◌≡◌};
ghost use Rattle.drm_schedule.specs.InForce.{entities_in_force, first_entities};

use crate::{Blocks, Stream};
use drm_fac::{Mode, Service};
use drm_lists::OwnedList;
use drm_sdc::Entity;

/// The services of a configuration, in the order of their lines.
pub type Services = OwnedList<Service>;

/// The streams of a configuration, in the order of their lines.
pub type Streams = OwnedList<Stream>;

/// The configurations of a schedule, in the order of their lines.
pub type Configs = OwnedList<Config>;

/// What the clock shows in the first super frame of a configuration.
#[derive(Clone, Copy, Debug, PartialEq, Eq)]
pub struct Clock {
    /// The Modified Julian Date.
    pub mjd: u32,
    pub hours: u8,
    pub minutes: u8,
}

/// A configuration of the multiplex, which holds from one super frame on.
#[derive(Drop)]
pub struct Config {
    /// The super frame with which it starts.
    pub start: u32,
    /// The number of super frames before the start that announce it.
    pub countdown: u8,
    pub mode: Mode,
    /// The code of the spectrum occupancy.
    pub occupancy: u8,
    /// Whether the interleaver is the short one.
    pub short_depth: bool,
    /// The code of the constellation of the Main Service Channel.
    pub msc: u8,
    /// Whether the Service Description Channel is in 4-QAM.
    pub qam4: bool,
    /// The protection level of the parts A.
    pub prot_a: u8,
    /// The protection level of the parts B.
    pub prot_b: u8,
    /// The bytes of the data field of each block of the Service Description Channel.
    pub room: u16,
    /// The services, whose last six bits are 0.
    pub services: Services,
    pub streams: Streams,
    pub clock: Option<Clock>,
    /// What the blocks tell beside the multiplex and the clock, by when it begins to hold.
    pub blocks: Blocks,
}

impl Config {
    /// The entities that it tells in a super frame, beside the multiplex, the clock and an announcement.
    pub fn entities_in_force(&self, super_frame: u32) -> &[Entity]
        ensures { result.now ≡ entities_in_force self.now super_frame }
    {
        let reached = super_frame.saturating_sub(self.start);
        let mut entities = self.first_entities();
        let mut left = self.blocks.as_slice();
        while let [block, more @ ..] = left {
            if block.from <= reached {
                entities = block.entities.as_slice();
            }
            left = more;
        }
        entities
    }

    /// The entities with which it begins, by which it is announced.
    pub fn first_entities(&self) -> &[Entity]
        ensures { result.now ≡ first_entities self.now }
    {
        match self.blocks.as_slice() {
            [first, ..] => first.entities.as_slice(),
            [] => &[],
        }
    }
}
