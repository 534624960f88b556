//! The parity of a packet.

ghost use Rattle.std.specs.Prelude.{◌≡◌, ◌+◌, ◌*◌, ◌-◌, ◌^◌, ◌<◌, ◌≤◌, ◌++◌, ℕ, length, take, drop, replicate};
ghost use Rattle.rs_erase.specs.Code.{IsCodeWord, word_of};
ghost use Rattle.dcp_pft.specs.Cutting.{IsShapeOf, chunks_of};
ghost use Rattle.dcp_pft.specs.Coding.{IsParityOf, AreParities};

use crate::parts::part;
use crate::shape::{PARITY_BYTES, Shape};
use drm_bits::put_at;
use rs_erase::encode;

/// Writes the parity of a packet that is cut in this shape: 48 bytes for each chunk.
pub fn code(packet: &[u8], shape: &Shape, parity: &mut [u8])
    requires shape { IsShapeOf (length packet.now) shape.now }
    requires room { length parity.old ≡ 48 * chunks_of shape.now }
    ensures { IsParityOf shape.now packet.now parity.new }
{
    if let Some(rs) = shape.rs {
        code_chunks(packet, usize::from(rs.k), parity);
    }
}

// Writes the parity of each chunk of k bytes. The zeros that fill the last one need no place: the code has zeros behind
// each chunk.
fn code_chunks(packet: &[u8], k: usize, parity: &mut [u8])
    requires size { k ≤ 207 }
    requires within_limit { length parity.old < 2 ^ 32 }
    ensures { (c z : ℕ) → c * k ≡ length packet.now + z → z < k → length parity.old ≡ 48 * c
        → AreParities c k (packet.now ++ replicate z 0) parity.new }
{
    let parity_bytes = PARITY_BYTES as usize;
    for i in 0..parity.len() / parity_bytes {
        code_chunk(part(packet, i * k, k), parity, i * parity_bytes);
    }
}

// Writes the parity of one chunk of at most 207 bytes to its place.
fn code_chunk(chunk: &[u8], parity: &mut [u8], at: usize)
    requires size { length chunk.now ≤ 207 }
    requires room { at + 48 ≤ length parity.old }
    ensures before { take at parity.new ≡ take at parity.old }
    ensures code_word { IsCodeWord (word_of chunk.now (take 48 (drop at parity.new))) }
{
    let mut last = [0; 48];
    encode(chunk, &mut last);
    put_at(parity, at, &last);
}
