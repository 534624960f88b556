//! The command `receive`: links are opened at up to sixteen addresses, or a capture is read, by
//! receivers, and the report of each is written.
//!
//! It builds on `recv_report`, whose receivers do the reading and make the reports, `recv_reading`
//! (`ReceiveOptions`: when enough is read) and `drm_links` (`Dock`, where links are opened).
//! `drm_top` calls it; `cmd_air` ends as it does (`ending`). `link_totals` and `capture_totals`
//! receive so, and answer the totals of what came: `cmd_count` prints these.
//!
//! Nothing is modulated: a report says in text what a modulator would have. The loop is in
//! `recv_report`, the recovery of packets in `dcp_collect`, the frames in `mod_feed`, the lines in
//! `report_text`.
//!
//! Begin with `receive` (`src/receive_command.rt`) and `receive_from_capture`
//! (`src/capture_command.rt`). Their runs are `ReceiveRun` (`specs/Receive.antt`) and `CaptureRun`
//! (`specs/Capture.antt`).
#![tactic(auto)]

mod capture_command;
mod receive_command;

pub use capture_command::{capture_totals, receive_from_capture};
pub use receive_command::{ending, link_totals, receive};
