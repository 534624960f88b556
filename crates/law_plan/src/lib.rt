//! Laws of a schedule's text: each line of the canonical text is read again as what it says
//! (`canonical_lines_are_read_again`), so is the whole text (`canonical_texts_are_read_again`), and
//! a text with files makes a schedule if and only if it is a text of that schedule, which is valid,
//! and these are its files (`texts_make_their_schedules`). The bodies of these functions do
//! nothing: the clauses are the laws, and nothing runs.
//!
//! Lines are read by `plan_lines`, texts by `drm_plan`, and the canonical text is that of
//! `plan_writer`. `law_load` stands on this crate.
//!
//! What is wrong with a text isn't said here: its first fault is in `plan_rules`, which schedules
//! are valid in `drm_schedule`.
//!
//! Begin with `IsReadAgain` in `specs/Texts.antt`, then `TextsMakeSchedules` in `specs/Whole.antt`.
#![tactic(auto)]

mod lines;
mod texts;
mod whole;

pub use lines::canonical_lines_are_read_again;
pub use texts::canonical_texts_are_read_again;
pub use whole::texts_make_their_schedules;
