//! Laws of receiving over several paths (networks that bring the same schedule): the report of what
//! all paths brought is that of the one delivery that they are together (`paths_report_deliveries`,
//! `mixed_paths_are_one_delivery`), and has all frames if each is in time over whatever path
//! (`paths_report_all_frames`). A schedule of at most 32,768 frames can be followed in any order
//! (`short_schedules_are_followed_in_any_order`). The functions of `src/laws.rt` have empty bodies
//! or only call other laws: the clauses are the laws, and nothing runs.
//!
//! The report is that of `report_journal`, deliveries are those of `law_delivery`. No crate stands
//! on this one.
//!
//! What `drmpaths` does in a run is said by `cmd_paths`; its paths and their lock are in
//! `drm_paths`.
//!
//! Begin with `ReportsDelivery` in `specs/Laws.antt`.
#![tactic(auto)]

mod laws;

pub use laws::{
    mixed_paths_are_one_delivery, paths_report_all_frames, paths_report_deliveries,
    short_schedules_are_followed_in_any_order,
};
