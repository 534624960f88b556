//! Laws of the command `check`: the canonical text that it prints of a schedule is checked again as
//! itself, beside the same files; and what a shelf (a store of files) gives as a schedule is valid,
//! with the shelf's own files. `what_check_prints_is_checked_again` in `src/again.rt` states all
//! four: its body is empty, its clauses are the laws, and nothing runs.
//!
//! Loading is that of `cmd_load`, the canonical text that of `plan_writer`; texts and schedules are
//! tied by `law_plan`. No crate stands on this one.
//!
//! How a text is read, and its first fault, is in `plan_rules` and `drm_plan`; the command itself
//! is in `cmd_serve`.
//!
//! Begin with `PrintedIsChecked` in `specs/Again.antt`.
#![tactic(auto)]

mod again;

pub use again::what_check_prints_is_checked_again;
