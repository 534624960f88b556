//! Links that are lent apart, as one relay.

ghost use Rattle.std.specs.Prelude.{ℕ, true, ◌≡◌, ◌<◌, ◌≤◌, [], ◌∷◌, length, slice_index_or};
ghost use Rattle.drm_links.specs.declared.member.Member.{Member};
ghost use Rattle.drm_links.specs.Link.{FitsBuffer, answer_of, longest_kept};
ghost use Rattle.drm_links.specs.History.{Received, SentTo};
ghost use Rattle.drm_links.specs.Calls.{is_up, up_after};
ghost use Rattle.drm_links.specs.MemoryGroup.{up_by};
ghost use Rattle.drm_gate.specs.Apart.{SourceTells, MemberTells, LinksTell, ups_of};

use crate::relay::Relay;
use dcp_sender::Outlets;
use drm_links::{Came, Link, Member, Sent};

/// A link that is received from, and others that are sent over. Each tells what is its own, and none in which order it happened.
#[derive(Drop)]
pub(crate) struct LinksApart<'a, L: Link, K: Link> {
    pub from: &'a mut L,
    pub to: &'a mut [Member<K>],
}

impl<'a, L: Link, K: Link> Outlets for LinksApart<'a, L, K> {
    ghost use Rattle.std.proofs.Common.{refl, ◌∙◌};
    ghost use Rattle.drm_gate.specs.ApartLaws.{apart_none, apart_then};

    ghost up = { λ apart. ups_of apart.to.now };

    ghost happened = { λ events a b. (b.from.ghost_name ≡ a.from.ghost_name) × (b.to.ghost_name ≡ a.to.ghost_name)
        × LinksTell (L.known a.from.now) (L.known b.from.now) K.known a.to.now b.to.now events };

    ghost nothing = { λ a. (refl, refl, apart_none (L.known a.from.now) K.known a.to.now) };

    ghost joins = { λ x y a b c first second. (
      second.0 ∙ first.0,
      second.1 ∙ first.1,
      apart_then x y (L.known a.from.now) (L.known b.from.now) (L.known c.from.now) K.known a.to.now b.to.now c.to.now first.2 second.2,
    ) };

    fn len(&self) -> usize {
        self.to.len()
    }

    fn is_up(&self, k: usize) -> bool {
        k < self.to.len() && self.to[k].up
    }

    fn send(&mut self, k: usize, bytes: &[u8]) -> Sent {
        send_over(&mut *self.to, k, bytes)
    }
}

impl<'a, L: Link, K: Link> Relay for LinksApart<'a, L, K> {
    fn recv(&mut self, buf: &mut [u8]) -> Came {
        recv_front(&mut *self.from, buf)
    }
}

// Sends one datagram over the k-th. One that refuses it has failed.
fn send_over<K: Link>(to: &mut [Member<K>], k: usize, bytes: &[u8]) -> Sent
    requires up { is_up (ups_of to.old) k ≡ true }
    requires length { length bytes.now ≤ longest_kept }
    ensures as_many { length to.new ≡ length to.old }
    ensures tells { (j : ℕ) (none : Member K) → j < length to.old
        → MemberTells K.known j (SentTo k bytes.now result ∷ []) (slice_index_or to.old j none) (slice_index_or to.new j none) }
    ensures up { ups_of to.new ≡ up_after (ups_of to.old) k result }
{
    send_by(&mut to[k], bytes)
}

fn send_by<K: Link>(member: &mut Member<K>, bytes: &[u8]) -> Sent
    requires up { member.old.up ≡ true }
    requires length { length bytes.now ≤ longest_kept }
    ensures tells { (k : ℕ) → MemberTells K.known k (SentTo k bytes.now result ∷ []) member.old member.new }
    ensures up { member.new.up ≡ up_by true result }
{
    let answer = member.link.send(bytes);
    if answer == Sent::Failed {
        member.up = false;
    }
    answer
}

// Receives into the front of the buffer, which no datagram is longer than.
fn recv_front<L: Link>(from: &mut L, buf: &mut [u8]) -> Came
    requires { 65536 ≤ length buf.old }
    ensures front { FitsBuffer result buf.new }
    ensures tells { SourceTells (Received (answer_of result buf.new) ∷ []) (L.known from.old) (L.known from.new) }
{
    from.recv(buf)
}
