//! The commands that show what bytes are: `fac` prints the nine bytes of a FAC (ES 201 980, "Fast
//! Access Channel") as a line, `show` what is in each packet of a capture.
//!
//! It builds on `drm_fac` (`decode`), `report_text` (the FAC line), `capture_reader` (the packets)
//! and `report_dump` (their text). `drm_top` calls it.
//!
//! What is printed of a packet is decided in `report_dump`. `show` recovers nothing and follows no
//! reconfiguration: `cmd_receive` does. `drm_show` isn't this command but a crate without code,
//! which re-exports the functions of the printed texts.
//!
//! Begin with `fac` (`src/fac_command.rt`) and `show` (`src/show_command.rt`). Their runs are
//! `FacRun` (`specs/Fac.antt`) and `ShowRun` (`specs/Show.antt`).
#![tactic(auto)]

mod fac_command;
mod head;
mod show_command;

pub use fac_command::fac;
pub use show_command::show;
