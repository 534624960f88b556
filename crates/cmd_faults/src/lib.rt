//! Why a run of `drmcast` stops early: its faults, each with its exit status and its line on
//! standard error.
//!
//! It builds on `text_output`, which writes a line in pieces without memory, and on the crates
//! whose faults it prints: `drm_fac`, `drm_schedule` (`Reason`), `capture_reader`, `drm_links`. It
//! is used by all crates of commands but `cmd_paths`, which has faults of its own (`PathsFault`),
//! by `live_server` and by `drm_top`.
//!
//! When a fault occurs is stated by the record of each command, in the `specs/` of its crate. What
//! is missing or bad in a report (status 7) is no fault: see `report_text`.
//!
//! Begin with `Fault` and its `report` (`src/fault.rt`). `fault_status` (`specs/Fault.antt`) is the
//! table of statuses, `fault_line` (`specs/Lines.antt`) that of lines, and `OneFailed`
//! (`specs/Causes.antt`) says when one call failed of two objects.
#![tactic(auto)]

mod capture;
mod fault;
mod reason;
mod units;

pub use fault::Fault;
pub use units::{UnitsFault, UnitsReason};
