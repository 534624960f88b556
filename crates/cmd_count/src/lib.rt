//! The command `count`: it receives as `receive` does, from one address or from a capture, and in
//! place of the report it writes one line, of the numbers of the report's last line and of what was
//! answered to the datagrams (kept, repeated, late).
//!
//! It builds on `cmd_receive`: a count is one of its runs, whose report goes nowhere. `drm_top`
//! calls it.
//!
//! The numbers are counted by `ReportCounts` of `report_text`; what is kept, repeated or late is
//! decided by `Collector::take` of `dcp_collect`.
//!
//! Begin with `count` (`src/command.rt`); `CountRun` (`specs/Run.antt`) says what a run does.
#![tactic(auto)]

mod command;

pub use command::{count, count_capture};
