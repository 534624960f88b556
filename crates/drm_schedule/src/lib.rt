//! The schedule of a multiplex as a value: its configurations with their services, streams and SDC
//! entities, by super frames; what the lines of a text can give of them; and which schedules are
//! valid.
//!
//! It builds on `drm_fac` and `drm_sdc` (services and entities), `dcp_pft` (`Carry`, how packets
//! are sent), `drm_lists`, and `plan_packing` (whether an announcement fits into the blocks before
//! it). It is used by the crates of texts (`plan_`), by `drm_timeline` and by all that serves.
//!
//! `drm_plan` reads the text, and `drm_timeline` derives the frames. Whether a channel can carry so
//! many bytes in its mode and occupancy is asked nowhere.
//!
//! Begin with `Plan` (`src/plan.rt`), `Config` (`src/config.rt`) and `Schedule`
//! (`src/schedule.rt`), a plan that is valid. `IsSchedule` and `first_invalid` (`specs/Valid.antt`)
//! say what is valid and what the first fault is, `InLines` (`specs/Ranges.antt`) what lines can
//! give. Functions in `src/laws.rt` do nothing, nor does `always_valid`: each is a law.
#![tactic(auto)]

mod announcement;
mod config;
mod invalid;
mod laws;
mod live;
mod plan;
mod same_lines;
mod schedule;
mod service_rules;
mod sizes;
mod stream;
mod timed;
mod valid;

pub use announcement::{Repeated, free_in_countdown};
pub use config::{Clock, Config, Configs, Services, Streams};
pub use dcp_pft::Carry;
pub use drm_fac::{Mode, Service};
pub use drm_lists::OwnedList;
pub use drm_sdc::{AppMode, Body, Channel15, Channels, Entities, Entity, MuxDesc, Octets, Part};
pub use invalid::{Invalid, Place, Reason};
pub use laws::{entities_can_be_written, one_is_in_force};
pub use live::Live;
pub use plan::{MOST_FRAMES, Plan};
pub use plan_packing::{Spot, can_be_packed};
pub use schedule::Schedule;
pub use sizes::{entity_len, free_len, packet_len};
pub use stream::{Content, Stream};
pub use timed::{Blocks, Timed};
