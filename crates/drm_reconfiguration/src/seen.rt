//! What a receiver sees of a logical frame.

ghost use Rattle.std.specs.Prelude.{◌≡◌, ◌+◌, ◌*◌, ◌<◌, ◌^◌};
ghost use Rattle.drm_reconfiguration.specs.Seen.{signature_of, named_by, IsSeenInRange};

use drm_bits::MuxDesc;
use drm_fac::{Channel, Mode};

/// What stays the same from a reconfiguration of the multiplex to the next one (ES 201 980): of the channel parameters
/// all but the identity, the reconfiguration index and the last two bits, which are 0 here.
#[derive(Clone, Copy, Debug, PartialEq, Eq)]
pub struct Signature {
    pub mode: Mode,
    pub channel: Channel,
    pub mux: MuxDesc,
}

impl Signature {
    /// The signature of a logical frame in this mode, with these channel parameters and this multiplex description.
    pub fn new(mode: Mode, channel: Channel, mux: MuxDesc) -> Signature
        ensures { result ≡ signature_of mode channel mux }
    {
        let channel = Channel {
            identity: 0,
            index: 0,
            last: 0,
            ..channel
        };
        Signature { mode, channel, mux }
    }
}

/// What a receiver sees of a logical frame.
#[derive(Clone, Copy, Debug, PartialEq, Eq)]
pub struct Seen {
    /// The place of the frame in its super frame, from 0 to 2.
    pub position: u8,
    /// The reconfiguration index, from 0 to 7: the number of super frames to the next reconfiguration, 0 where none is ahead.
    pub index: u8,
    pub signature: Signature,
}

impl Seen {
    /// The frame that this one names, if its own number is `frame`: the first one of the super frame that its
    /// reconfiguration index counts down to.
    pub(crate) fn names(self, frame: u64) -> Option<u64>
        requires range { IsSeenInRange self }
        requires in_range { frame < 2 ^ 62 }
        ensures { result ≡ named_by frame self }
    {
        if self.index == 0 {
            return None;
        }
        Some(frame + 3 * u64::from(self.index) - u64::from(self.position))
    }
}
