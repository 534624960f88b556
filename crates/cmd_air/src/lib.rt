//! The command `air`: a schedule is sent in memory, each feed of a script is given the datagrams
//! that the script delivers to it, and the report of each feed's receiver is written.
//!
//! It builds on `cmd_load` (the schedule and the script), `drm_server` (the datagrams), `MemLink`
//! of `drm_links` (a link in memory) and `recv_report` (receivers side by side, in threads).
//! `drm_top` calls `air`; `cmd_exercise` calls `air_over` with a schedule and a script of its own.
//!
//! It doesn't read scripts (`plan_script`), and knows neither sockets nor time: what comes over a
//! network is received by `cmd_receive`.
//!
//! Begin with `air_over` (`src/air_command.rt`), which is `air` without the files. `AirRun`
//! (`specs/Air.antt`) is a whole run, `IsAired` beside it the report of one feed.
#![tactic(auto)]

mod air_command;

pub use air_command::{air, air_over};
