//! A link that datagrams come from and go to.

ghost use Rattle.std.specs.Prelude.{ℕ, ◌≡◌, ◌≤◌, Option, length};
ghost use Rattle.drm_links.specs.Known.{Known, RisesWhere, HasCause, CountsCall, IfBothKnown};
ghost use Rattle.drm_links.specs.Link.{Traffic, LinkReceives, LinkSends, LinkRests, KeepsAnswers, FitsBuffer};

/// The most bytes of a datagram.
pub const LONGEST_DATAGRAM: usize = 65_536;

#[derive(Clone, Copy, Debug, PartialEq, Eq)]
pub enum Came {
    /// A datagram of this many bytes stands at the front of the buffer.
    Datagram(usize),
    /// No datagram came for a while.
    Idle,
    Failed,
}

#[derive(Clone, Copy, Debug, PartialEq, Eq)]
pub enum Sent {
    Sent,
    Failed,
}

/// A link failed.
#[derive(Clone, Copy, Debug, PartialEq, Eq)]
pub struct LinkFault;

pub trait Link: Drop {
    /// How often a recv answered that nothing came, up to the last value of a u64.
    ghost idles: { Self → ℕ };

    /// How often a call has failed, and what came, what is ahead, what is gone and how long it rested, where the link tells it.
    ghost known: { Self → Known Traffic };

    /// The next datagram, in the front of the buffer.
    fn recv(&mut self, buf: &mut [u8]) -> Came
        requires { 65536 ≤ length buf.old }
        ensures front { FitsBuffer result buf.new }
        ensures answer { IfBothKnown (known self.old) (known self.new) (LinkReceives result buf.new) }
        ensures counts_call { CountsCall (λ traffic. traffic.calls) (known self.old) (known self.new) }
        ensures cause { HasCause (known self.old) (known self.new) (result ≡ Came.Failed) }
        ensures idle { RisesWhere (idles self.old) (idles self.new) (result ≡ Came.Idle) };

    /// Sends one datagram.
    fn send(&mut self, bytes: &[u8]) -> Sent
        ensures gone { IfBothKnown (known self.old) (known self.new) (LinkSends result bytes.now) }
        ensures kept { IfBothKnown (known self.old) (known self.new) KeepsAnswers }
        ensures counts_call { CountsCall (λ traffic. traffic.calls) (known self.old) (known self.new) }
        ensures cause { HasCause (known self.old) (known self.new) (result ≡ Sent.Failed) }
        ensures idle { idles self.new ≡ idles self.old };

    /// Waits for about this many milliseconds. What comes in that time may be lost.
    fn rest(&mut self, millis: u32)
        ensures rested { IfBothKnown (known self.old) (known self.new) (LinkRests millis) }
        ensures counts_call { CountsCall (λ traffic. traffic.calls) (known self.old) (known self.new) }
        ensures cause { (known self.new).faults ≡ (known self.old).faults }
        ensures idle { idles self.new ≡ idles self.old };
}
