//! PFT of DCP (TS 102 821): how a packet is carried, whole or in fragments; how it is cut and coded
//! with Reed-Solomon so that some of its fragments may be lost; fragments written, and read. How
//! many may be lost, and how long packets and fragments may be, is this project's own profile
//! (`src/limits.rt`).
//!
//! It builds on `rs_erase` (the parity of a chunk) and `drm_bits` (the header's check value). It is
//! used by `dcp_sender`, which cuts packets, `dcp_collect`, which puts them together,
//! `drm_schedule` (`Carry`), and `capture_reader` (where a fragment ends).
//!
//! It recovers nothing: `dcp_collect` decides whether the fragments suffice, and `rs_erase` fills
//! the erased bytes. Sequence numbers are counted by `drm_timeline` and `dcp_sender`.
//!
//! Begin with `shape_for` (`src/shape.rt`), `code` (`src/coding.rt`) and `read_fragment`
//! (`src/read.rt`). `SpellsHead` (`specs/Head.antt`) is the header, `shape_of`
//! (`specs/Cutting.antt`) the cutting, `payload_of` (`specs/Coding.antt`) what a fragment carries.
//! Of the laws in `src/laws.rt`, functions that do nothing, see `any_may_be_lost`.
#![tactic(auto)]

mod carry;
mod coding;
mod fault;
mod fragment;
mod head;
mod interleave;
mod laws;
mod lay_out;
mod limits;
mod parts;
mod read;
mod shape;
mod turn;
mod write;
mod write_all;

pub use carry::{Carry, cut_for, datagram_len, datagrams};
pub use coding::code;
pub use fault::PftFault;
pub use fragment::{Addr, Fragment};
pub use laws::{
    all_taken, any_may_be_lost, chunks_agree, datagrams_have_their_size, none_is_empty,
    one_fragment, read_as_written,
};
pub use limits::{
    LEAST_FRAGMENT, LONGEST_PACKET, MOST_CARRIED, MOST_FRAGMENT, MOST_FRAGMENTS, MOST_LOSSES,
    MOST_PARITY, most_packet,
};
pub use read::{read_fragment, size_by_head};
pub use shape::{Rs, Shape, chunks, shape_for};
pub use write::write_fragment;
pub use write_all::{FRAGMENTS_ROOM, write_fragments};
