//! Laws of a schedule that another one follows: both are one schedule, the datagrams of whose frames
//! behind the seam are those of the next one (`the_next_goes_on`), and whose frames below it are
//! those of the first one, but for the announcement of the next (`the_seam_is_announced`). So a
//! reconfiguration between two schedules is announced by sending both as one up to the seam. The
//! functions do nothing: their clauses are the laws.
//!
//! Frames are those of `drm_timeline`, datagrams those of `drm_server`. No crate stands on this one.
//!
//! Begin with `joined` in `specs/Joined.antt`.
#![tactic(auto)]

mod laws;

pub use laws::{the_next_goes_on, the_seam_is_announced};
