//! Reassembly: datagrams come in any order, some never, some twice, some hostile; out of them come
//! the packets, each once and in order, recovered from its PFT fragments by erasure decoding, or
//! named as lost (TS 102 821; the window and the numbering are this project's own).
//!
//! It builds on `dcp_pft` and `dcp_af` (a datagram, read) and `rs_patterns` (patterns of erased
//! bytes, by which they are filled). It is used by `mod_feed`, which makes frames of the packets,
//! by `recv_reading` and by all that receives.
//!
//! It knows neither sockets nor time: a packet is given up by sequence numbers alone, and when a
//! reading ends is decided by `recv_reading`. What a delivery calls for is defined without a
//! collector by `law_collect`, which states that a collector gives it.
//!
//! Begin with `Collector` (`src/collector.rt`). `CollectorState` with `answer`, `after_take` and
//! `after_next` (`specs/CollectorState.antt`) is a collector as data and each call as a function of
//! it; `CollectorRun` (`specs/Runs.antt`) is a whole run. `src/solve.rt` has the decoding.
#![tactic(auto)]

mod bytes;
mod collector;
mod counters;
mod form;
mod head;
mod item;
mod made;
mod number;
mod payloads;
mod read;
mod short_chunks;
mod sizes;
mod slot;
mod slots;
mod solve;
mod taken;

pub use collector::Collector;
pub use head::Head;
pub use item::Out;
pub use taken::{Field, Taken};
