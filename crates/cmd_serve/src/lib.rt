//! The commands that read a schedule: `check` writes its canonical text; `serve` writes its
//! datagrams as a capture, or sends them over a group of links to up to sixteen addresses, with live
//! streams or without.
//!
//! It builds on `cmd_load` (the schedule), `drm_server` (its frames and datagrams) and `live_server`
//! (streams that take their bytes from input); a `Dock` of `drm_links` opens and closes the group.
//! `drm_top` calls it.
//!
//! `drm_timeline` and `drm_server` determine what is in a frame, `plan_writer` writes the canonical
//! text, and `drm_adapt` keeps the time between frames over UDP.
//!
//! Begin with `send` (`src/serve_command.rt`), where `serve` is too; `check` is in
//! `src/check_command.rt`. Their runs are `LiveSendRun` and `LiveServeRun` (`specs/Live.antt`), and
//! `CheckRun` (`specs/Check.antt`); `SendRun` (`specs/Send.antt`) is a run over links of one
//! schedule. Without `--live` that is the schedule itself (`none_is_the_schedule` of `live_server`).
#![tactic(auto)]

mod check_command;
mod serve_command;

pub use check_command::check;
pub use serve_command::{send, serve};
