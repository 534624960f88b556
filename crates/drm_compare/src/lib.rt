//! Two schedules side by side: how many super frames, from the first one on, have the same
//! datagrams.
//!
//! It builds on `drm_server` (the packet of a frame, and how that is cut). The packet and the cut are
//! compared, and no parity is made: that the same datagrams come of the same packet and the same
//! cut, and of nothing else, is proved (`proofs/Same.antt`) with what `law_collect` knows of the
//! fragments of a packet. `cmd_agree` calls it, and `law_changeover` says what follows.
//!
//! No text of a schedule is compared, and no delivery: see `law_agreement` for what two modulators
//! of one schedule give.
//!
//! Begin with `agreement` (`src/comparison.rt`) and `IsAgreement` (`specs/Agreement.antt`).
#![tactic(auto)]

mod comparison;

pub use comparison::agreement;
