//! The sizes of a packet.

use dcp_pft::MOST_CARRIED;

/// The most bytes of a packet, with its parity.
pub(crate) const MOST_BYTES: usize = MOST_CARRIED as usize;

/// The most chunks of a packet: each has a byte at least, and its parity.
pub(crate) const MOST_CHUNKS: usize = MOST_BYTES / (PARITY_BYTES + 1);

/// The most bytes of a chunk.
pub(crate) const CHUNK_BYTES: usize = 207;

/// The bytes of parity behind each chunk; so many of its bytes may be lost.
pub(crate) const PARITY_BYTES: usize = 48;
