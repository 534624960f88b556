//! The packing of an announcement: the SDC entities that announce a reconfiguration (ES 201 980,
//! "Reconfiguration") go, in their order, into the free bytes of the super frames before it. Each
//! goes into the first super frame that holds it, and not into one before that of the entity in
//! front of it. Only sizes are packed here, as numbers of bytes.
//!
//! It stands on no other crate. `drm_schedule` asks whether an announcement fits, and re-exports
//! the calls; `drm_timeline` writes the blocks by the same packing.
//!
//! No entity and no block is here: see `drm_sdc`. How much of a super frame is free is said by
//! `drm_schedule`.
//!
//! Begin with `Spot::place` in `src/packing.rt`; `packed` in `specs/Packing.antt` is the whole
//! rule. `one_packing` in `src/laws.rt` has an empty body: its clause states that there is at most
//! one packing and that it is found.
#![tactic(auto)]

mod laws;
mod packing;

pub use laws::one_packing;
pub use packing::{Spot, can_be_packed};
