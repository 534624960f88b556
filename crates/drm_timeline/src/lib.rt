//! The frames of a schedule: which configuration holds in each super frame, and which FAC and which
//! block of the Service Description Channel are sent (ES 201 980); how long the packet of a frame
//! is and which sequence number it has; and where receivers see reconfigurations.
//!
//! It builds on `drm_schedule` (a valid schedule), `drm_fac` and `drm_sdc` (what is sent), and
//! `drm_reconfiguration` (what receivers see). It is used by `drm_server`, `live_streams` and
//! `plan_script`.
//!
//! The bytes of streams, and the packets themselves, are made by `drm_server`. What a receiver
//! makes of frames that came is in `drm_reconfiguration` and `mod_feed`.
//!
//! Begin with `fac_at` (`src/fast_access.rt`), `block_into` (`src/block.rt`) and `config_at`
//! (`src/configuration.rt`). `fac_of` (`specs/FastAccess.antt`) is the FAC of a frame, `block_of`
//! (`specs/Blocks.antt`) the block of a super frame, `announcement_of` (`specs/Announcing.antt`)
//! what announces the next configuration. `starts_are_announced` and `switches_are_at_starts` do
//! nothing: each is a law.
#![tactic(auto)]

mod announcing;
mod block;
mod block_contents;
mod configuration;
mod fast_access;
mod numbers;
mod schedule_laws;

pub use block::block_into;
pub use block_contents::description;
pub use configuration::{config_at, index_at};
pub use drm_reconfiguration::{
    Before, Seen, Signature, Tracker, none_is_resumed, switches_at_all_starts,
    switches_only_at_starts, the_tracker_tells_the_switches,
};
pub use fast_access::fac_at;
pub use numbers::{config_of_frame, frame_count, packet_len, sequence_number};
pub use schedule_laws::{starts_are_announced, switches_are_at_starts};
