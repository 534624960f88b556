//! How packets are carried.

ghost use Rattle.std.specs.Prelude.{◌≡◌, ◌+◌, ◌<◌, ◌≤◌, ◌^◌, ℕ, IfSome};
ghost use Rattle.dcp_pft.specs.Limits.{most_packet};
ghost use Rattle.dcp_pft.specs.Cutting.{IsShapeOf};
ghost use Rattle.dcp_pft.specs.Carrying.{CarryFits, cut_of, datagram_count, fragment_size, datagram_size};

use crate::shape::{CODED_HEAD, PLAIN_HEAD};
use crate::{Shape, shape_for};

/// How an AF packet becomes datagrams.
#[derive(Clone, Copy, Debug, PartialEq, Eq)]
pub enum Carry {
    /// One datagram is the packet.
    Plain,
    /// The packet is cut into PFT fragments (TS 102 821).
    Pft {
        /// 0 without FEC. With it a fragment takes at most one part in `m + 1` of what the parity can stand for.
        m: u8,
        /// The most bytes of a fragment.
        mtu: u16,
    },
}

/// How a packet of so many bytes is cut, where it isn't carried whole.
pub fn cut_for(carry: Carry, len: usize) -> Option<Shape>
    requires at_least_one { 1 ≤ len }
    requires in_range { len ≤ most_packet carry }
    requires carry { CarryFits carry }
    ensures cut { result ≡ cut_of carry len }
    ensures shape { IfSome result (IsShapeOf len) }
{
    match carry {
        Carry::Plain => None,
        Carry::Pft { m, mtu } => Some(shape_for(len, m, mtu)),
    }
}

/// How many datagrams carry a packet that is cut so.
pub fn datagrams(cut: Option<Shape>) -> u32
    ensures { (carry : Carry) (len : ℕ) → cut ≡ cut_of carry len → result ≡ datagram_count carry len }
{
    match cut {
        None => 1,
        Some(shape) => shape.count,
    }
}

/// The bytes of datagram `i` of a packet of `len` bytes that is cut so.
/// Example: `datagram_len(Some(shape_for(400, 2, 1400)), 400, 0)` is 47: 16 bytes of header, and 31 of payload.
pub fn datagram_len(cut: Option<Shape>, len: usize, i: u32) -> u64
    requires { len < 2 ^ 16 }
    ensures size { (carry : Carry) → cut ≡ cut_of carry len → result ≡ datagram_size carry len i }
    ensures in_range { result < 2 ^ 17 }
{
    match cut {
        None => len as u64,
        Some(shape) => fragment_len(&shape, len, i),
    }
}

// The bytes of fragment `i`, of a packet of `len` bytes.
fn fragment_len(shape: &Shape, len: usize, i: u32) -> u64
    ensures size { result ≡ fragment_size shape.now len i }
    ensures in_range { result < 2 ^ 17 }
{
    let piece = u64::from(shape.piece);
    match shape.rs {
        Some(_) => u64::from(CODED_HEAD) + piece,
        None => {
            let behind = (len as u64).saturating_sub(u64::from(i) * piece);
            u64::from(PLAIN_HEAD) + piece.min(behind)
        }
    }
}
