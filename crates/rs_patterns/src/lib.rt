//! The erased bytes of a packet's chunks (TS 102 821): which they are, by the marks of the
//! fragments that have come, and a chunk filled in its code word. Packets that lose the same
//! fragments have the same places erased, so up to 128 patterns are kept, prepared, for the chunks
//! that come next; no answer depends on what is kept.
//!
//! Code words are solved by `rs_erase`; which byte of a chunk belongs to which fragment is the rule
//! of `dcp_pft`. The collector (`dcp_collect`) has a `Patterns`, and calls it for each chunk.
//!
//! It knows no packets and takes no datagrams: when enough of a packet has come is decided in
//! `dcp_collect`.
//!
//! Begin with `Patterns::solve` in `src/patterns.rt`; `erased_positions` in `specs/Positions.antt`
//! says which places of the code word are erased.
#![tactic(auto)]

mod erased;
mod patterns;
mod spacings;

pub use erased::next_index;
pub use patterns::Patterns;
