//! The rules for the lines of a schedule's text together: which line may stand where, how often,
//! and what a configuration lacks. `read_lines` gives what all lines say, sorted by configuration,
//! or the first fault of the text with its line.
//!
//! Each line is read by `plan_lines`, in the forms of `plan_grammar`; comments and words are those
//! of `text_lines`. `drm_plan` makes the schedule of it.
//!
//! Values aren't compared with each other here: that a stream is long enough, or an announcement
//! fits, is decided by `Schedule::checked` of `drm_schedule`. Files are asked for by `drm_plan`,
//! and read by `cmd_load`.
//!
//! Begin with `read_lines` in `src/rules.rt` and `ParsedText` in `src/said.rt`; `rows_of` in
//! `specs/Rules.antt` is the table of faults of a line, in the order in which they are looked for.
#![tactic(auto)]

mod counts;
mod fault;
mod keywords;
mod rules;
mod said;
mod version;

pub use fault::{PlanFault, fault_at_line};
pub use rules::read_lines;
pub use said::{ConfigLines, ParsedLine, ParsedText};
