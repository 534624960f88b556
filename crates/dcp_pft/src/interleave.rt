//! The payload of a fragment with a code: every count-th byte of the coded chunks, taken chunk by chunk.

ghost use Rattle.std.specs.Prelude.{◌≡◌, ◌+◌, ◌*◌, ◌-◌, ◌^◌, ◌<◌, ◌≤◌, ◌++◌, ℕ, List, length, take, replicate};
ghost use Rattle.drm_bits.specs.Bits.{IsBytes};
ghost use Rattle.dcp_pft.specs.Limits.{most_parity};
ghost use Rattle.dcp_pft.specs.Coding.{coded, every};
ghost use Rattle.dcp_pft.specs.Interleaving.{payload_with};

use crate::parts::part;
use crate::shape::PARITY_BYTES;

// The zeros that end the last chunk of a packet.
static ZEROS: [u8; 255] = [0; 255];

// How far a payload is written.
#[derive(Clone, Copy)]
struct Next {
    // The bytes that are written.
    written: usize,
    // How many of the coded bytes that come now stand before the next one to be written.
    skip: usize,
}

/// Writes every count-th byte of the coded chunks of k bytes, from the first one on.
pub(crate) fn interleave(
    packet: &[u8],
    parity: &[u8],
    k: u8,
    count: u32,
    first: u32,
    into: &mut [u8],
)
    requires { length parity.now ≤ most_parity }
    ensures bytes { IsBytes into.new }
    ensures every { (c z : ℕ) → c * k ≡ length packet.now + z → length parity.now ≡ 48 * c
        → into.new ≡ every count first (length into.old) (coded c k (packet.now ++ replicate z 0) parity.now) }
{
    let k = usize::from(k);
    let parity_bytes = PARITY_BYTES as usize;
    let mut next = Next {
        written: 0,
        skip: first as usize,
    };
    for i in 0..parity.len() / parity_bytes {
        let chunk = part(packet, i * k, k);
        let chunk_parity = part(parity, i * parity_bytes, parity_bytes);
        next = take_chunk(chunk, k, chunk_parity, count, next, into);
    }
    fill_rest(into, next.written);
}

// Goes on with a chunk, the zeros that make it k bytes long, and its parity.
fn take_chunk(
    chunk: &[u8],
    k: usize,
    parity: &[u8],
    count: u32,
    from: Next,
    into: &mut [u8],
) -> Next
    requires size { (length chunk.now ≤ k) × (k ≤ 255) }
    requires within_limit { length parity.now ≤ 48 }
    requires within { from.written ≤ length into.old }
    requires in_range { from.skip < 2 ^ 40 }
    ensures within { result.written ≤ length into.new }
    ensures in_range { result.skip < 2 ^ 40 }
    ensures written { (rest : List ℕ) → payload_with count result into.new rest
        ≡ payload_with count from into.old (chunk.now ++ replicate (k - length chunk.now) 0 ++ parity.now ++ rest) }
{
    let behind_chunk = take_every(chunk, count, from, into);
    let behind_zeros = take_every(&ZEROS[..k - chunk.len()], count, behind_chunk, into);
    take_every(parity, count, behind_zeros, into)
}

// Goes on with these bytes, every count-th of them. They lie in one slice, so that no place is computed for a byte.
fn take_every(bytes: &[u8], count: u32, from: Next, into: &mut [u8]) -> Next
    requires within_limit { length bytes.now ≤ 255 }
    requires within { from.written ≤ length into.old }
    requires in_range { from.skip < 2 ^ 40 }
    ensures within { result.written ≤ length into.new }
    ensures in_range { result.skip < 2 ^ 40 }
    ensures written { (rest : List ℕ) → payload_with count result into.new rest
        ≡ payload_with count from into.old (bytes.now ++ rest) }
{
    let step = count as usize;
    let mut written = from.written;
    let mut at = from.skip;
    while at < bytes.len() && written < into.len() {
        into[written] = bytes[at];
        written += 1;
        at += step;
    }
    Next {
        written,
        skip: at.saturating_sub(bytes.len()),
    }
}

/// Behind the coded bytes there are zeros.
pub(crate) fn fill_rest(into: &mut [u8], written: usize)
    requires { written ≤ length into.old }
    ensures { into.new ≡ take written into.old ++ replicate (length into.old - written) 0 }
{
    into[written..].fill(0);
}
