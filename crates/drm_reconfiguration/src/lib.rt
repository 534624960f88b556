//! The reconfigurations of a multiplex as a receiver sees them: what it sees of each logical frame,
//! and where, among the frames that came, the configuration changed (ES 201 980,
//! "Reconfiguration"): as announced by the reconfiguration index, or without an announcement that
//! came (resumed).
//!
//! It builds on `drm_fac` (channel parameters, mode) and `drm_bits` (the multiplex description).
//! `mod_feed` follows the frames of a receiver with it; `drm_timeline` says by it where a schedule
//! has reconfigurations.
//!
//! It doesn't read frames (`mdi_items`). `drm_timeline` determines the index of a schedule's frame,
//! and `report_text` writes the lines of a report.
//!
//! Begin with `Seen` (`src/seen.rt`) and `Tracker` (`src/tracker.rt`). `StandsBefore`
//! (`specs/Switches.antt`) says what stands before an item of a list, without any tracker. Four
//! functions do nothing, each a law: `the_tracker_tells_the_switches`, and those in
//! `src/announced.rt`.
#![tactic(auto)]

mod announced;
mod seen;
mod tracker;

pub use announced::{none_is_resumed, switches_at_all_starts, switches_only_at_starts};
pub use seen::{Seen, Signature};
pub use tracker::{Before, Tracker, the_tracker_tells_the_switches};
