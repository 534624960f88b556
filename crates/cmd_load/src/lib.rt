//! Schedules and scripts, with the files that they name, from a `Shelf`: the trait of `drm_links`
//! for a store of files.
//!
//! It builds on `drm_plan` (a schedule's text: `read_plan`, `Draft`), `plan_script` (a script's
//! text) and `cmd_faults`. It is used by `cmd_serve` and `cmd_air`; `law_load` states a law of it.
//!
//! It doesn't read the lines of a text (`plan_lines`, `plan_rules`), and doesn't decide which
//! schedules are valid (`first_invalid` of `drm_schedule`). The files of the system are opened by
//! `FileShelf` of `drm_adapt`.
//!
//! Begin with `read_schedule` (`src/schedule.rt`) and `load` (`src/loading.rt`). `schedule_named`
//! (`specs/Schedule.antt`) is what is read, load by load, up to the first fault, as a function of
//! the contents of the `Shelf`; `ReadBy` (`specs/Loading.antt`) says that a call did this.
#![tactic(auto)]

mod loading;
mod schedule;
mod script;

pub use loading::ScheduleFault;
pub use schedule::read_schedule;
pub use script::{read_script_named, script_fault};
