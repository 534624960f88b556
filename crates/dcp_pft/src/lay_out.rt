//! The coded bytes of a packet in one room.

ghost use Rattle.std.specs.Prelude.{◌≡◌, ◌+◌, ◌*◌, ◌-◌, ◌/◌, ◌≤◌, ◌++◌, ℕ, length, take, replicate};
ghost use Rattle.dcp_pft.specs.Limits.{most_parity};
ghost use Rattle.dcp_pft.specs.Coding.{coded};

use crate::interleave::fill_rest;
use crate::parts::part;
use crate::shape::PARITY_BYTES;
use drm_bits::put_at;

/// Writes the coded chunks of k bytes one after another, and zeros behind them.
pub(crate) fn lay_out(packet: &[u8], parity: &[u8], k: u8, into: &mut [u8])
    requires within_limit { length parity.now ≤ most_parity }
    requires room { length parity.now / 48 * (k + 48) ≤ length into.old }
    ensures laid { (c z : ℕ) → c * k ≡ length packet.now + z → length parity.now ≡ 48 * c
        → into.new ≡ coded c k (packet.now ++ replicate z 0) parity.now ++ replicate (length into.old - c * (k + 48)) 0 }
    ensures same_length { length into.new ≡ length into.old }
{
    let k = usize::from(k);
    let parity_bytes = PARITY_BYTES as usize;
    let chunks = parity.len() / parity_bytes;
    for i in 0..chunks {
        let chunk = part(packet, i * k, k);
        let chunk_parity = part(parity, i * parity_bytes, parity_bytes);
        lay_chunk(chunk, k, chunk_parity, into, i * (k + parity_bytes));
    }
    fill_rest(into, chunks * (k + parity_bytes));
}

// Writes a chunk, the zeros that make it k bytes long, and its parity.
fn lay_chunk(chunk: &[u8], k: usize, parity: &[u8], into: &mut [u8], at: usize)
    requires size { length chunk.now ≤ k }
    requires parity { length parity.now ≡ 48 }
    requires room { at + (k + 48) ≤ length into.old }
    ensures laid { take (at + (k + 48)) into.new
        ≡ take at into.old ++ (chunk.now ++ replicate (k - length chunk.now) 0 ++ parity.now) }
    ensures same_length { length into.new ≡ length into.old }
{
    put_at(into, at, chunk);
    into[at + chunk.len()..at + k].fill(0);
    put_at(into, at + k, parity);
}
