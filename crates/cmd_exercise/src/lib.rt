//! The command `exercise`: from a number it makes a schedule of as many super frames and a script
//! with losses that Reed-Solomon recovers, sends and receives the schedule in memory, and writes
//! one line on the report: how many lines of each kind, and the check value of its bytes.
//!
//! It builds on `cmd_air`, whose `air_over` sends and receives, `drm_schedule` (the schedule as a
//! value) and `plan_script` (the deliveries). `drm_top` calls it.
//!
//! It reads no files and opens no links; the report isn't printed. A schedule of one's own goes
//! through `cmd_air`.
//!
//! Begin with `exercise` (`src/exercise_command.rt`), then the schedule (`src/schedule.rt`) and the
//! deliveries (`src/script.rt`). `plan`, `deliveries` and `line` (`specs/Exercise.antt`) say what
//! these are, `ExerciseRun` (`specs/Run.antt`) what a run does.
#![tactic(auto)]

mod exercise_command;
mod line;
mod schedule;
mod script;

pub use exercise_command::exercise;
