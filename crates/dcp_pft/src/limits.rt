//! The limits of this profile.

ghost use Rattle.std.specs.Prelude.{◌≡◌, ◌≤◌};
ghost use Rattle.dcp_pft.specs.Limits.{most_packet, longest_packet, longest_in_short};

use crate::Carry;
use crate::shape::PARITY_BYTES;

/// The most bytes of a packet, however it is carried.
pub const LONGEST_PACKET: usize = 32_768;

// The most bytes of a packet whose fragments are allowed fewer bytes than long ones. Such fragments of a longer packet
// would be more than its code is made for.
const LONGEST_IN_SHORT: usize = 8192;

// The fewest bytes that long fragments are allowed.
const LONG_FRAGMENT: u16 = 256;

/// The most fragments that a packet is cut to stand the loss of.
pub const MOST_LOSSES: u8 = 5;

/// The fewest bytes that a fragment may be allowed.
pub const LEAST_FRAGMENT: usize = 128;

/// The most bytes of a fragment.
pub const MOST_FRAGMENT: usize = 1500;

/// The most fragments of a packet.
pub const MOST_FRAGMENTS: u32 = 4096;

/// The most bytes that the fragments of a packet carry together.
pub const MOST_CARRIED: u32 = 49_152;

/// The most chunks of a packet.
const MOST_CHUNKS: usize = 159;

/// The bytes of the parity of a packet with the most chunks.
pub const MOST_PARITY: usize = MOST_CHUNKS * PARITY_BYTES as usize;

/// The most bytes of a packet that is carried so.
/// Example: `most_packet(Carry::Pft { m: 5, mtu: 128 })` is 8,192.
pub fn most_packet(carry: Carry) -> usize
    ensures is { result ≡ most_packet carry }
    ensures least { longest_in_short ≤ result }
    ensures most { result ≤ longest_packet }
{
    match carry {
        Carry::Pft { mtu, .. } if mtu < LONG_FRAGMENT => LONGEST_IN_SHORT,
        Carry::Plain | Carry::Pft { .. } => LONGEST_PACKET,
    }
}
