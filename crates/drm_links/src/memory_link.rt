//! A link in memory.

ghost use Rattle.std.specs.Prelude.{◌≡◌, ◌↔◌, ◌<◌, ◌≤◌, ◌++◌, [], ◌∷◌, Some, length, slice_get, slice_index_or, IsTrue, IfOk, OnOk, OnErr, MatchOption};
ghost use Rattle.drm_links.specs.Known.{RisesWhere, HasCause, CountsCall, IfBothKnown};
ghost use Rattle.drm_links.specs.Link.{LinkReceives, LinkSends, LinkRests, KeepsAnswers, FitsBuffer};
ghost use Rattle.drm_links.specs.MemoryLink.{LinkState, MemLinkReceives, MemLinkSends, BringsDatagram, IsCounted, longest_brought, answers_ahead, taken_from, after_rest, link_known};

use crate::failing::is_listed;
use crate::front::fill_front;
use crate::kept_datagram::{KeptDatagram, LONGEST_KEPT, make_spare};
use crate::{Came, Link, Sent};
use drm_bits::{NoMemory, Octets};
use std::alloc::Global;
use std::collections::VecDeque;
use std::marker::Model;

// A datagram that came, and the number of the recv at which it came.
#[derive(Drop)]
struct LinkHeard {
    recv: u64,
    bytes: Octets,
}

// The longest wait that is counted: as many rests as a u64 counts, each of them the longest.
const LONGEST_WAIT: u128 = 79_228_162_495_817_593_515_539_431_425;

/// A link that gives the datagrams that were brought, keeps those that are sent and how long it rested before each, and
/// fails or is idle where told.
#[derive(Drop)]
pub struct MemLink {
    came: Vec<LinkHeard>,
    coming: VecDeque<Octets>,
    failing: Vec<u64>,
    idling: Vec<u64>,
    gone: Vec<KeptDatagram>,
    waits: Vec<u128>,
    waiting: u128,
    spare: Vec<KeptDatagram>,
    recvs: u64,
    sends: u64,
    calls: u64,
    faults: u64,
    idles: u64,
}

impl Model for MemLink {
    ghost use Rattle.std.specs.Prelude.{◌+◌, ◌*◌, ◌≤◌, map, length, vec_len, vec_capacity, All};
    ghost use Rattle.std.specs.VecDeque.{deque_len};
    ghost use Rattle.drm_links.specs.MemoryLink.{LinkState, CameBefore, longest_brought};

    ghost Value = { LinkState };

    ghost view = { λ link. record {
      came = map (λ heard. (heard.recv, heard.bytes)) link.came.items;
      coming = link.coming.items;
      failing = link.failing.items;
      idling = link.idling.items;
      gone = link.gone.items;
      waits = link.waits.items;
      waiting = link.waiting;
      room = vec_len link.spare;
      recvs = link.recvs;
      sends = link.sends;
      calls = link.calls;
      faults = link.faults;
      idles = link.idles;
    } };

    ghost invariant = { λ link. (vec_len link.came + deque_len link.coming ≤ vec_capacity link.came)
        × (vec_len link.gone + vec_len link.spare ≤ vec_capacity link.gone)
        × (vec_len link.waits + vec_len link.spare ≤ vec_capacity link.waits)
        × (link.waiting ≤ link.calls * 4294967295)
        × All (λ bytes. length bytes ≤ longest_brought) link.coming.items
        × (link.recvs ≤ link.calls)
        × (link.sends ≤ link.calls)
        × CameBefore (map (λ heard. (heard.recv, heard.bytes)) link.came.items) link.recvs link.calls };
}

impl MemLink {
    /// A link to which no datagram was brought yet. The numbers in `fail` count the calls of `recv` and those of
    /// `send` apart, from 0, and those in `idle` count the calls of `recv`. A `recv` whose number stands in both lists
    /// fails. Room for `sends` datagrams is reserved here, so that a call takes no memory.
    pub fn make(
        alloc: Global,
        fail: &[u64],
        idle: &[u64],
        sends: usize,
    ) -> Result<MemLink, NoMemory>
        ensures made { IfOk result (λ link. link ≡ record {
          came = [];
          coming = [];
          failing = fail.now;
          idling = idle.now;
          gone = [];
          waits = [];
          waiting = 0;
          room = sends;
          recvs = 0;
          sends = 0;
          calls = 0;
          faults = 0;
          idles = 0;
        }) }
        ensures tells { IfOk result (λ link. (⟦<MemLink as Link>⟧.known link).contents ≡ Some (record {
          answers = [];
          ahead = answers_ahead fail.now idle.now 0 [];
          gone = [];
          waits = [];
          waiting = 0;
          sends = Some (taken_from fail.now 0 sends);
          calls = 0;
        })) }
        ensures faults { IfOk result (λ link. (⟦<MemLink as Link>⟧.known link).faults ≡ 0) }
        ensures idles { IfOk result (λ link. ⟦<MemLink as Link>⟧.idles link ≡ 0) }
    {
        Ok(MemLink {
            came: Vec::new(alloc),
            coming: VecDeque::new(alloc),
            failing: fail.to_vec(alloc)?,
            idling: idle.to_vec(alloc)?,
            gone: Vec::with_capacity(alloc, sends)?,
            waits: Vec::with_capacity(alloc, sends)?,
            waiting: 0,
            spare: make_spare(alloc, sends)?,
            recvs: 0,
            sends: 0,
            calls: 0,
            faults: 0,
            idles: 0,
        })
    }

    /// Whether no call was made on it.
    pub fn is_unused(&self) -> bool
        ensures { IsTrue result ↔ (self.now.calls ≡ 0) }
    {
        self.calls == 0
    }

    /// Puts a datagram behind all others that are still to come.
    pub fn bring(&mut self, alloc: Global, datagram: &[u8]) -> Result<(), NoMemory>
        requires { length datagram.now ≤ longest_brought }
        ensures brought { OnOk result (self.new
            ≡ record self.old { coming = self.old.coming ++ datagram.now ∷ [] }) }
        ensures tells { OnOk result (IfBothKnown (link_known self.old) (link_known self.new) (BringsDatagram datagram.now)) }
        ensures unchanged { OnErr result (self.new ≡ self.old) }
    {
        let bytes = Octets::from_slice(alloc, datagram)?;
        self.came.reserve(self.coming.len() + 1)?;
        let Ok(()) = self.coming.push_back(bytes) else {
            return Err(NoMemory);
        };
        Ok(())
    }

    /// The datagram that was sent as the k-th, from 0.
    pub fn sent(&self, k: usize) -> Option<&[u8]>
        ensures { MatchOption result (length self.now.gone ≤ k) (λ datagram.
            (k < length self.now.gone) × (datagram.now ≡ slice_index_or self.now.gone k [])) }
    {
        match self.gone.get(k) {
            Some(room) => Some(room.bytes()),
            None => None,
        }
    }

    /// For how many milliseconds it rested before the datagram that was sent as the k-th, from 0.
    pub fn waited(&self, k: usize) -> Option<u128>
        ensures { result ≡ slice_get self.now.waits k }
    {
        self.waits.get(k).copied()
    }

    // What is known of the link between its calls.
    fn counted(&self)
        ensures { IsCounted self.now }
    {
        let _ = &self.calls;
    }

    // Takes one recv from what is ahead.
    fn hear(&mut self, buf: &mut [u8]) -> Came
        requires { 65536 ≤ length buf.old }
        ensures exact { MemLinkReceives result buf.old buf.new self.old self.new }
        ensures front { FitsBuffer result buf.new }
        ensures cause { HasCause (link_known self.old) (link_known self.new) (result ≡ Came.Failed) }
        ensures idle { RisesWhere self.old.idles self.new.idles (result ≡ Came.Idle) }
    {
        let call = self.recvs;
        self.recvs = call.saturating_add(1);
        self.calls = self.calls.saturating_add(1);
        if is_listed(&self.failing, call) {
            self.faults = self.faults.saturating_add(1);
            return Came::Failed;
        }
        if self.coming.is_empty() || is_listed(&self.idling, call) {
            self.idles = self.idles.saturating_add(1);
            return Came::Idle;
        }
        let Some(bytes) = self.coming.pop_front() else {
            unreachable!()
        };
        let length = bytes.as_slice().len();
        fill_front(buf, bytes.as_slice());
        let Ok(()) = self.came.push(LinkHeard { recv: call, bytes }) else {
            unreachable!()
        };
        Came::Datagram(length)
    }

    // Counts a rest.
    fn wait(&mut self, millis: u32)
        ensures { self.new ≡ after_rest millis self.old }
    {
        let wait = self.waiting.saturating_add(u128::from(millis));
        self.waiting = wait.min(LONGEST_WAIT);
        self.calls = self.calls.saturating_add(1);
    }

    // Takes one send, where there is room.
    fn carry(&mut self, bytes: &[u8]) -> Sent
        ensures exact { MemLinkSends result bytes.now self.old self.new }
        ensures cause { HasCause (link_known self.old) (link_known self.new) (result ≡ Sent.Failed) }
    {
        let call = self.sends;
        self.sends = call.saturating_add(1);
        self.calls = self.calls.saturating_add(1);
        if bytes.len() > LONGEST_KEPT || self.spare.is_empty() || is_listed(&self.failing, call) {
            self.faults = self.faults.saturating_add(1);
            return Sent::Failed;
        }
        let Some(mut room) = self.spare.pop() else {
            unreachable!()
        };
        room.fill(bytes);
        let Ok(()) = self.gone.push(room) else {
            unreachable!()
        };
        let Ok(()) = self.waits.push(self.waiting) else {
            unreachable!()
        };
        self.waiting = 0;
        Sent::Sent
    }
}

impl Link for MemLink {
    ghost idles = { λ link. link.idles };

    ghost known = { link_known };

    fn recv(&mut self, buf: &mut [u8]) -> Came
        requires { 65536 ≤ length buf.old }
        ensures exact { MemLinkReceives result buf.old buf.new self.old self.new }
        ensures front { FitsBuffer result buf.new }
        ensures answer { IfBothKnown (link_known self.old) (link_known self.new) (LinkReceives result buf.new) }
        ensures counts_call { CountsCall (λ traffic. traffic.calls) (link_known self.old) (link_known self.new) }
        ensures cause { HasCause (link_known self.old) (link_known self.new) (result ≡ Came.Failed) }
        ensures idle { RisesWhere self.old.idles self.new.idles (result ≡ Came.Idle) }
    {
        self.counted();
        self.hear(buf)
    }

    fn send(&mut self, bytes: &[u8]) -> Sent
        ensures exact { MemLinkSends result bytes.now self.old self.new }
        ensures gone { IfBothKnown (link_known self.old) (link_known self.new) (LinkSends result bytes.now) }
        ensures kept { IfBothKnown (link_known self.old) (link_known self.new) KeepsAnswers }
        ensures counts_call { CountsCall (λ traffic. traffic.calls) (link_known self.old) (link_known self.new) }
        ensures cause { HasCause (link_known self.old) (link_known self.new) (result ≡ Sent.Failed) }
        ensures idle { self.new.idles ≡ self.old.idles }
    {
        self.counted();
        self.carry(bytes)
    }

    fn rest(&mut self, millis: u32)
        ensures exact { self.new ≡ after_rest millis self.old }
        ensures rested { IfBothKnown (link_known self.old) (link_known self.new) (LinkRests millis) }
        ensures counts_call { CountsCall (λ traffic. traffic.calls) (link_known self.old) (link_known self.new) }
        ensures cause { self.new.faults ≡ self.old.faults }
        ensures idle { self.new.idles ≡ self.old.idles }
    {
        self.counted();
        self.wait(millis);
    }
}
