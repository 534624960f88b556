//! A path.

ghost use Rattle.std.specs.Prelude.{◌≡◌, ◌<◌, ◌≤◌, length};
ghost use Rattle.drm_paths.specs.State.{new_path, bytes_in, most_bytes};

use crate::Road;
use std::alloc::Global;
use std::marker::Model;
use std::sync::ledger::Share;

/// A path: its number, the datagrams that it took, and its part of the ledger, in which each of them counts.
#[derive(Drop)]
pub struct Path<G: Road> {
    pub(crate) number: u8,
    pub(crate) taken: Vec<Vec<u8>>,
    pub(crate) bytes: u64,
    pub(crate) share: Share<G>,
}

impl<G: Road> Model for Path<G> {
    ghost use Rattle.std.specs.Prelude.{◌≡◌, ◌<◌, ◌≤◌, map, vec_len};
    ghost use Rattle.drm_paths.specs.State.{PathState, bytes_in, most_bytes, path_state};

    ghost Value = { PathState };

    ghost view = { λ p. path_state p.number (map (λ d. d.items) p.taken.items) p.share.parts p.share.amount };

    ghost invariant = { λ p. (p.share.parts ≡ 1) × (p.share.amount ≡ vec_len p.taken)
        × (p.bytes ≡ bytes_in (map (λ d. d.items) p.taken.items)) × (p.bytes ≤ most_bytes)
        × (p.number < G.parts) };
}

impl<G: Road> Path<G> {
    // A path that took nothing.
    pub(crate) fn new(alloc: Global, number: u8, share: Share<G>) -> Path<G>
        requires share { (share.parts ≡ 1) × (share.amount ≡ 0) }
        requires number { number < G.parts }
        ensures { result ≡ new_path number }
    {
        Path {
            number,
            taken: Vec::new(alloc),
            bytes: 0,
            share,
        }
    }

    /// Its number among the paths of a run, from 0.
    pub fn number(&self) -> u8
        ensures number { result ≡ self.now.number }
        ensures below { result < G.parts }
    {
        self.number
    }

    /// How many datagrams it took.
    pub fn taken(&self) -> usize
        ensures { result ≡ length self.now.taken }
    {
        self.taken.len()
    }

    /// How many bytes these have.
    pub fn bytes(&self) -> u64
        ensures bytes { result ≡ bytes_in self.now.taken }
        ensures within_limit { result ≤ most_bytes }
    {
        self.bytes
    }

    /// In the ledger it has one part, and counts what it took.
    pub fn counts_what_it_took(&self)
        ensures part { self.now.parts ≡ 1 }
        ensures counted { self.now.amount ≡ length self.now.taken }
    {
        let _ = &self.number;
    }
}
