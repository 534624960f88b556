//! The command `gate`: a gateway that receives at one address, recovers each packet, sends it at
//! once to up to sixteen addresses with another protection, and at the end prints what it counted.
//!
//! It builds on `drm_gate`, which does all this over a group of links. This crate opens and closes
//! it in a dock (`drm_links`) and writes the line (`text_output`). `drm_top` calls it.
//!
//! Packets are recovered by `dcp_collect` and cut by `dcp_sender`; what becomes of each is stated
//! in `drm_gate`. A capture is put under another protection by `cmd_convert`.
//!
//! Begin with `gate` (`src/command.rt`), then `pass_between` (`src/between.rt`). `GateCommandRun`
//! (`specs/Run.antt`) is a whole run: what goes out over which link, and when the run fails.
//! `gate_line` (`specs/Line.antt`) is the line.
#![tactic(auto)]

mod between;
mod command;
mod line;

pub use command::gate;
