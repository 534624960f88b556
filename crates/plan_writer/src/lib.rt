//! The canonical text of a schedule, which `check` prints: its lines in a fixed order, each with
//! its keyword and words in one spelling (numbers without leading zeros, hex in lower case, one
//! space between words), always as a text of version 2.
//!
//! The lines and their canonical words are those of `plan_grammar`, the values those of
//! `drm_schedule`. `drm_plan` re-exports `write_plan`, and `cmd_serve` prints its text for `check`.
//!
//! Bytes of files aren't written, only their names. That the text is read again as the schedule
//! isn't said here but in `law_plan`. Scripts aren't written at all.
//!
//! Begin with `write_plan` in `src/canonical.rt`; `plan_lines` and `canonical` in
//! `specs/Canonical.antt` say which lines in which order.
#![tactic(auto)]

mod canonical;
mod entities;
mod lines;

pub use canonical::write_plan;
pub use entities::write_entity;
pub use lines::{write_line, write_stream};
