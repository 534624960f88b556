//! Chunks of few bytes. As many bytes of such a chunk as it has give the others, and it is found by these directly: of a packet
//! with such chunks little has to come for each, so each may cost little.

ghost use Rattle.std.specs.Prelude.{ℕ, ◌≡◌, ◌+◌, ◌<◌, ◌≤◌, drop, length, take, IfSome};
ghost use Rattle.rs_erase.specs.Short.{HasBytes};
ghost use Rattle.dcp_collect.specs.Short.{HasPlaces, IsKnown, IsKnownOfFew};

use crate::sizes::PARITY_BYTES;
use rs_erase::find_chunk;
use rs_patterns::next_index;

/// The most bytes of such a chunk, and with its parity.
const FEW_BYTES: usize = 15;

const FEW_CODED: usize = FEW_BYTES + PARITY_BYTES;

/// Which bytes are known of the chunks that begin with one fragment.
#[derive(Drop)]
pub(crate) struct KnownBytes {
    pub(crate) first: usize,
    pub(crate) len: usize,
    pub(crate) places: [u8; FEW_CODED],
}

impl KnownBytes {
    /// Those of a packet's first chunk, if its chunks of k bytes have few.
    pub(crate) fn prepare(marks: &[bool], count: usize, k: usize) -> Option<KnownBytes>
        requires at_least_one { 0 < count }
        requires room { count ≤ length marks.now }
        ensures { IfSome result (IsKnownOfFew count k marks.now) }
    {
        if k > FEW_BYTES {
            return None;
        }
        Some(known_from(marks, count, k, 0))
    }

    /// Goes over to the chunks that begin with a fragment.
    pub(crate) fn begin_with(&mut self, marks: &[bool], count: usize, k: usize, first: usize)
        requires known { IsKnown count k marks.now self.old }
        requires short { k ≤ 15 }
        requires first { first < count }
        requires room { count ≤ length marks.now }
        ensures known { IsKnown count k marks.now self.new }
        ensures first { self.new.first ≡ first }
    {
        if self.first != first {
            *self = known_from(marks, count, k, first);
        }
    }

    /// The chunk of k bytes that starts at a place, if it is found by its known bytes.
    pub(crate) fn chunk(&self, bytes: &[u8], k: usize, start: usize) -> Option<[u8; 16]>
        requires places { HasPlaces k self.now }
        requires short { k ≤ 15 }
        requires room { start + k + 48 ≤ length bytes.now }
        ensures { IfSome result (λ chunk. HasBytes (take k chunk) (take self.now.len self.now.places) (drop start bytes.now)) }
    {
        find_chunk(&self.places[..self.len], &bytes[start..], k)
    }
}

// The known bytes of the chunks that begin with this fragment.
fn known_from(marks: &[bool], count: usize, k: usize, first: usize) -> KnownBytes
    requires first { first < count }
    requires short { k ≤ 15 }
    requires room { count ≤ length marks.now }
    ensures known { IsKnown count k marks.now result }
    ensures first { result.first ≡ first }
{
    let mut places = [0; FEW_CODED];
    let mut len = 0;
    let mut index = first;
    for j in 0..k + PARITY_BYTES {
        if marks[index] {
            places[len] = j as u8;
            len += 1;
        }
        index = next_index(index, count);
    }
    KnownBytes { first, len, places }
}
