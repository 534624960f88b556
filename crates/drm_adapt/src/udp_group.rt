//! UDP sockets as a group. It tells nothing of what came and went.

ghost use Rattle.std.specs.Prelude.{ℕ, List, None, ◌≡◌, [], ◌∷◌};
ghost use Rattle.drm_links.specs.Link.{answer_of};
ghost use Rattle.drm_links.specs.History.{Received, SentTo, failed_in, risen};

use crate::UdpLink;
use drm_links::{Came, Group, Link, Sent};
use std::io::Eprint;
use std::time::Clock;

/// Links over sockets, and which of those that are sent over haven't failed.
#[derive(Drop)]
pub struct UdpGroup<'a, R> {
    pub(crate) source: Option<UdpLink<'a, R>>,
    pub(crate) links: Vec<UdpLink<'a, R>>,
    pub(crate) ups: Vec<bool>,
    pub(crate) faults: u64,
}

impl<'a, R: Clock + Eprint> Group for UdpGroup<'a, R> {
    ghost known = { λ group. record { faults = group.faults; contents = None } };

    ghost up = { λ group. group.ups.items };

    fn len(&self) -> usize {
        self.ups.len()
    }

    fn is_up(&self, k: usize) -> bool {
        k < self.ups.len() && self.ups[k]
    }

    fn recv(&mut self, buf: &mut [u8]) -> Came {
        let came = match &mut self.source {
            Some(link) => link.recv(buf),
            None => Came::Idle,
        };
        self.faults = faults_after_recv(self.faults, came);
        came
    }

    fn send(&mut self, k: usize, bytes: &[u8]) -> Sent {
        let answer = send_over(&mut self.links, k, bytes);
        self.faults = faults_after_send(self.faults, answer);
        if answer == Sent::Failed {
            self.ups[k] = false;
        }
        answer
    }

    fn rest(&mut self, k: usize, millis: u32) {
        if let Some(link) = self.links.get_mut(k) {
            link.rest(millis);
        }
    }
}

// Sends over the k-th of these links.
fn send_over<R: Clock + Eprint>(links: &mut [UdpLink<'_, R>], k: usize, bytes: &[u8]) -> Sent {
    match links.get_mut(k) {
        Some(link) => link.send(bytes),
        None => Sent::Failed,
    }
}

// A count of failed calls after a recv that gave this.
fn faults_after_recv(faults: u64, came: Came) -> u64
    ensures { (buf : List ℕ) → result ≡ risen (failed_in (Received (answer_of came buf) ∷ [])) faults }
{
    match came {
        Came::Failed => faults.saturating_add(1),
        Came::Datagram(_) | Came::Idle => faults,
    }
}

// A count of failed calls after a send.
fn faults_after_send(faults: u64, answer: Sent) -> u64
    ensures { (k : ℕ) (bytes : List ℕ) → result ≡ risen (failed_in (SentTo k bytes answer ∷ [])) faults }
{
    match answer {
        Sent::Failed => faults.saturating_add(1),
        Sent::Sent => faults,
    }
}
