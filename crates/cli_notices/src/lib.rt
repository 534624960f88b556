//! What a program says to a person on standard error, beside what `run` writes: why a file, a stream or a link failed, and how
//! the sends to an address stand. Nothing of it is in a contract.
//!
//! It builds on the standard library alone, and on `jiff_core` for a moment's date. It is used by `drm_adapt`, whose links,
//! files and streams have the reasons, and by the programs' `main`.
//!
//! What is wrong with words that are refused is found by `cli_mistakes`.
//!
//! Begin with `Edge` (`src/edge.rt`); which refusals of the system are lost datagrams and which are faults is in
//! `src/sends.rt`. There is no `specs/`.
#![tactic(auto)]

mod edge;
mod names;
mod sends;

pub use edge::Edge;
pub use sends::{Acceptance, Sends};
