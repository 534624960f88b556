//! What a gateway hears, and sends over.

ghost use Rattle.std.specs.Prelude.{◌≡◌, ◌≤◌, [], ◌∷◌, length};
ghost use Rattle.drm_links.specs.Link.{FitsBuffer, answer_of};
ghost use Rattle.drm_links.specs.History.{Received};

use dcp_sender::Outlets;
use drm_links::{Came, Group};

/// Links that are sent over, and one that is received from.
pub(crate) trait Relay: Outlets {
    /// The next datagram, in the front of the buffer.
    fn recv(&mut self, buf: &mut [u8]) -> Came
        requires { 65536 ≤ length buf.old }
        ensures front { FitsBuffer result buf.new }
        ensures heard { Self.happened (Received (answer_of result buf.new) ∷ []) self.old self.new }
        ensures up { Self.up self.new ≡ Self.up self.old };
}

impl<G: Group> Relay for G {
    fn recv(&mut self, buf: &mut [u8]) -> Came {
        Group::recv(self, buf)
    }
}
