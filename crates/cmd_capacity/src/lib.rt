//! The command `capacity`: what the channel of each configuration of a schedule carries, how much of
//! it the schedule uses, and what doesn't fit.
//!
//! It builds on `drm_channel` (cells, code rates, what a setup uses), `cmd_load` (the schedule) and
//! `cmd_serve`, whose record of a run over a schedule is its own too. `drm_top` calls it.
//!
//! What a channel carries is said in `drm_channel` alone. No other command asks for it: a schedule
//! that doesn't fit is valid, and is checked and sent as it stands.
//!
//! Begin with `capacity` (`src/command.rt`). `setup_of` (`specs/Asked.antt`) is what a configuration
//! asks of its channel, `report` (`specs/Report.antt`) the lines of a schedule, and `CapacityRun`
//! (`specs/Run.antt`) a run.
#![tactic(auto)]

mod command;
mod piece;
mod report;
mod setup;

pub use command::capacity;
