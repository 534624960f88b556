//! Several links that are sent the same, and one that is received from.

ghost use Rattle.std.specs.Prelude.{ℕ, List, Bool, true, false, ◌≡◌, ◌≤◌, [], ◌∷◌, length};
ghost use Rattle.drm_links.specs.Known.{Known};
ghost use Rattle.drm_links.specs.Link.{FitsBuffer, answer_of, longest_kept};
ghost use Rattle.drm_links.specs.History.{History, Received, SentTo, RestedAt, GroupTells};
ghost use Rattle.drm_links.specs.Calls.{is_up, up_after, NoneUp};

use crate::{Came, Sent};

/// Links with one history: what was received, sent and waited for over all of them, in the order in which it happened. A link that has
/// failed is asked for nothing any more.
pub trait Group: Drop {
    /// How often a call has failed, and what happened, where the group tells it.
    ghost known: { Self → Known History };

    /// Which of the links that are sent over haven't failed.
    ghost up: { Self → List Bool };

    /// How many links are sent over.
    fn len(&self) -> usize
        ensures { result ≡ length (up self.now) };

    /// Whether the k-th of them hasn't failed.
    fn is_up(&self, k: usize) -> bool
        ensures { result ≡ is_up (up self.now) k };

    /// The next datagram, in the front of the buffer.
    fn recv(&mut self, buf: &mut [u8]) -> Came
        requires { 65536 ≤ length buf.old }
        ensures front { FitsBuffer result buf.new }
        ensures tells { GroupTells (Received (answer_of result buf.new) ∷ []) (known self.old) (known self.new) }
        ensures up { up self.new ≡ up self.old };

    /// Sends one datagram over the k-th.
    fn send(&mut self, k: usize, bytes: &[u8]) -> Sent
        requires up { is_up (up self.old) k ≡ true }
        requires length { length bytes.now ≤ longest_kept }
        ensures tells { GroupTells (SentTo k bytes.now result ∷ []) (known self.old) (known self.new) }
        ensures up { up self.new ≡ up_after (up self.old) k result };

    /// Waits for about this many milliseconds, before the next datagram for the k-th.
    fn rest(&mut self, k: usize, millis: u32)
        requires { is_up (up self.old) k ≡ true }
        ensures tells { GroupTells (RestedAt k millis ∷ []) (known self.old) (known self.new) }
        ensures up { up self.new ≡ up self.old };
}

/// Whether each link has failed.
pub fn none_up<G: Group>(group: &G) -> bool
    ensures yes { result ≡ true → NoneUp (G.up group.now) }
    ensures no { result ≡ false → (k : ℕ) × (is_up (G.up group.now) k ≡ true) }
{
    for k in 0..group.len() {
        if group.is_up(k) {
            return false;
        }
    }
    true
}
