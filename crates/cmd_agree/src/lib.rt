//! The command `agree`: how many super frames of two schedules, from the first one on, have the same
//! datagrams. As far as they do, a server of the second may take over from one of the first, and
//! no receiver can tell.
//!
//! It builds on `drm_compare` (the comparison), `cmd_load` (the schedules) and `cmd_serve`, whose
//! record of a run over what is read is its own too. `drm_top` calls it.
//!
//! What follows of two schedules that agree is not here but in `law_changeover`.
//!
//! Begin with `agree` (`src/command.rt`). `both_named` (`specs/Reading.antt`) is what is read,
//! `IsAgreeLine` (`specs/Run.antt`) the line of two schedules, and `AgreeRun` a run.
#![tactic(auto)]

mod command;
mod line;
mod pair;

pub use command::agree;
pub use pair::SchedulePair;
