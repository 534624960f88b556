//! The schedule of a multiplex as a text: read with its first fault, into a draft that waits for
//! the files that it names, and then into a valid schedule. It re-exports `write_plan`, which
//! writes the canonical text.
//!
//! It builds on `plan_rules` (the lines of a text, read, and what is wrong with them together),
//! `plan_writer` (the canonical text) and `drm_schedule` (the schedule as a value, and what is
//! valid). It is used by `cmd_load` and `cmd_serve`; `law_plan` states that a canonical text is
//! read again as its schedule.
//!
//! A single line is read by `plan_lines`, by the grammar in `plan_grammar`. Files are loaded by
//! `cmd_load`, and which schedules are valid is decided by `drm_schedule`. Scripts are in
//! `plan_script`.
//!
//! Begin with `read_plan` (`src/reading.rt`) and `Draft` (`src/draft.rt`). `draft_of`
//! (`specs/Text.antt`) says what a text gives, `plan_of` (`specs/Projection.antt`) which line each
//! setting of a plan comes from, `valid_of` (`specs/Draft.antt`) what becomes of a draft.
#![tactic(auto)]

mod configs;
mod draft;
mod files;
mod lists;
mod places;
mod projection;
mod reading;
mod settings;

pub use draft::Draft;
pub use drm_schedule::{
    Carry, Clock, Config, Configs, Content, Invalid, Mode, OwnedList, Place, Plan, Reason,
    Schedule, Services, Stream, Streams,
};
pub use plan_rules::PlanFault;
pub use plan_writer::write_plan;
pub use reading::read_plan;
