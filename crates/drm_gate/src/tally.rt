//! What a gateway counts.

ghost use Rattle.std.specs.Prelude.{◌≡◌, ◌*◌, ◌<◌, ◌^◌};
ghost use Rattle.drm_gate.specs.Tallies.{nothing, over};

/// How many packets were sent and how many weren't, and how many datagrams.
#[derive(Clone, Copy, Debug, PartialEq, Eq)]
pub struct Tally {
    /// Packets that were sent whole.
    pub given: u64,
    /// Packets that didn't come, or too few datagrams of them.
    pub missing: u64,
    /// Packets that can't be made whole, or are no AF packets.
    pub bad: u64,
    /// Packets above the limit of the carry.
    pub large: u64,
    /// Datagrams that were sent.
    pub sent: u64,
}

impl Tally {
    pub(crate) fn new() -> Tally
        ensures { result ≡ nothing }
    {
        Tally {
            given: 0,
            missing: 0,
            bad: 0,
            large: 0,
            sent: 0,
        }
    }

    // The datagrams of so many links together, each of which took these.
    pub(crate) fn over(&self, links: u64) -> Tally
        requires { links * self.now.sent < 2 ^ 64 }
        ensures { result ≡ over links self.now }
    {
        Tally {
            sent: links * self.sent,
            ..*self
        }
    }
}
