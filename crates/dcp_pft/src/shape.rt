//! Into how many fragments a packet is cut, and of how many bytes.

ghost use Rattle.std.specs.Prelude.{◌≡◌, ◌+◌, ◌*◌, ◌^◌, ◌<◌, ◌≤◌, Option};
ghost use Rattle.dcp_pft.specs.declared.carry.Carry.TheVariants.{Pft};
ghost use Rattle.dcp_pft.specs.Limits.{most_packet, most_losses, least_fragment, most_fragment, most_fragments, most_carried, most_chunks};
ghost use Rattle.dcp_pft.specs.Cutting.{IsShapeOf, shape_of, coded_shape, plain_shape, cut, chunks_of};

/// How a packet is coded (TS 102 821).
#[derive(Clone, Copy, Debug, PartialEq, Eq)]
pub struct Rs {
    /// The bytes of a chunk, without its parity.
    pub k: u8,
    /// The zeros that end the last chunk.
    pub z: u8,
}

/// How a packet is cut.
#[derive(Clone, Copy, Debug, PartialEq, Eq)]
pub struct Shape {
    /// The number of fragments.
    pub count: u32,
    /// The bytes of a fragment's payload; without a code the last one may have fewer.
    pub piece: u16,
    pub rs: Option<Rs>,
}

/// The most bytes of a chunk.
const CHUNK_BYTES: u32 = 207;

/// The bytes of parity behind each chunk, and so many of its bytes may be lost.
pub(crate) const PARITY_BYTES: u32 = 48;

/// The bytes of a fragment's header with a code, and without one.
pub(crate) const CODED_HEAD: u32 = 16;

pub(crate) const PLAIN_HEAD: u32 = 14;

/// How a packet of so many bytes is cut so that m fragments may be lost and no datagram is longer than `mtu` bytes.
/// Example: `shape_for(209, 5, 1400)` is `Shape { count: 20, piece: 16, rs: Some(Rs { k: 105, z: 1 }) }`.
pub fn shape_for(len: usize, m: u8, mtu: u16) -> Shape
    requires at_least_one { 1 ≤ len }
    requires in_range { len ≤ most_packet (Pft m mtu) }
    requires within_limit { m ≤ most_losses }
    requires least { least_fragment ≤ mtu }
    requires most { mtu ≤ most_fragment }
    ensures shape { result ≡ shape_of len m mtu }
    ensures is { IsShapeOf len result }
    ensures at_least_one { 0 < result.count }
    // No limit of a receiver is passed.
    ensures within_limit { result.count ≤ most_fragments }
    ensures bytes { result.count * result.piece ≤ most_carried }
    ensures chunks { chunks_of result ≤ most_chunks }
{
    if m == 0 {
        plain(len as u32, mtu)
    } else {
        coded(len as u32, m, mtu)
    }
}

// Without a code.
fn plain(len: u32, mtu: u16) -> Shape
    requires at_least_one { 1 ≤ len }
    requires in_range { len ≤ most_packet (Pft 0 mtu) }
    requires least { least_fragment ≤ mtu }
    ensures { result ≡ plain_shape len mtu }
{
    equal_pieces(len, u32::from(mtu) - PLAIN_HEAD, None)
}

// With a code, in equal chunks.
#[tactic(auto, unfolding(crate::specs::Cutting::chunk_count, crate::specs::Cutting::chunk_size, crate::specs::Cutting::coded_size, crate::specs::Cutting::most_bytes))]
fn coded(len: u32, m: u8, mtu: u16) -> Shape
    requires at_least_one { 1 ≤ len }
    requires in_range { len ≤ most_packet (Pft m mtu) }
    requires kept { 1 ≤ m }
    requires within_limit { m ≤ most_losses }
    requires least { least_fragment ≤ mtu }
    ensures { result ≡ coded_shape len m mtu }
{
    let chunks = len.div_ceil(CHUNK_BYTES);
    let k = len.div_ceil(chunks);
    let most = (PARITY_BYTES * chunks / (u32::from(m) + 1)).min(u32::from(mtu) - CODED_HEAD);
    let rs = Rs {
        k: k as u8,
        z: (chunks * k - len) as u8,
    };
    equal_pieces(chunks * (k + PARITY_BYTES), most, Some(rs))
}

// As few pieces of at most so many bytes as this takes, of equal size.
fn equal_pieces(size: u32, most: u32, rs: Option<Rs>) -> Shape
    requires at_least_one { 0 < size }
    requires in_range { size < 2 ^ 16 }
    requires room { 0 < most }
    ensures { result ≡ cut size most rs }
{
    let count = size.div_ceil(most);
    Shape {
        count,
        piece: size.div_ceil(count) as u16,
        rs,
    }
}

/// The chunks that the fragments of this shape make: none without a code.
pub fn chunks(shape: &Shape) -> u32
    requires { shape.now.count * shape.now.piece < 2 ^ 32 }
    ensures { result ≡ chunks_of shape.now }
{
    match shape.rs {
        None => 0,
        Some(rs) => shape.count * u32::from(shape.piece) / (u32::from(rs.k) + PARITY_BYTES),
    }
}
