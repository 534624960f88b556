//! Links that are sent over.

ghost use Rattle.std.specs.Prelude.{ℕ, List, Bool, true, ◌≡◌, ◌≤◌, [], ◌∷◌, ◌++◌, length};
ghost use Rattle.drm_links.specs.Link.{longest_kept};
ghost use Rattle.drm_links.specs.History.{GroupEvent, SentTo, GroupTells};
ghost use Rattle.drm_links.specs.Calls.{is_up, up_after};

use drm_links::{Group, Sent};

/// Links that packets are sent over, whether one history tells what happened at all of them, as that of a `Group` does, or each link
/// tells what went over it.
pub trait Outlets {
    /// Which of the links haven't failed.
    ghost up: { Self → List Bool };

    /// Just these events led from the one state to the other.
    ghost happened: { List GroupEvent → Self → Self → Type 0 };

    /// How many links there are.
    fn len(&self) -> usize
        ensures { result ≡ length (up self.now) };

    /// Whether the k-th hasn't failed.
    fn is_up(&self, k: usize) -> bool
        ensures { result ≡ is_up (up self.now) k };

    /// Sends one datagram over the k-th.
    fn send(&mut self, k: usize, bytes: &[u8]) -> Sent
        requires up { is_up (up self.old) k ≡ true }
        requires length { length bytes.now ≤ longest_kept }
        ensures happened { happened (SentTo k bytes.now result ∷ []) self.old self.new }
        ensures up { up self.new ≡ up_after (up self.old) k result };

    ghost nothing: { (a : Self) → happened [] a a };

    ghost joins: { (x y : List GroupEvent) (a b c : Self) → happened x a b → happened y b c → happened (x ++ y) a c };
}

impl<G: Group> Outlets for G {
    ghost use Rattle.drm_links.proofs.CallLemmas.{Tells-none, Tells-then};

    ghost up = { G.up };

    ghost happened = { λ events a b. GroupTells events (G.known a) (G.known b) };

    ghost nothing = { λ a. Tells-none (G.known a) };

    ghost joins = { λ x y a b c. Tells-then x y (G.known a) (G.known b) (G.known c) };

    fn len(&self) -> usize {
        Group::len(self)
    }

    fn is_up(&self, k: usize) -> bool {
        Group::is_up(self, k)
    }

    fn send(&mut self, k: usize, bytes: &[u8]) -> Sent {
        Group::send(self, k, bytes)
    }
}
