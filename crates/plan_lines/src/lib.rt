//! The reader of one line of a schedule's text: `read_line` gives what the line says, or a fault:
//! `Word` if these aren't the words of such a line, else `Number` if one isn't spelled as it has to
//! be, else `Range`.
//!
//! A line's words are read into values by its row (`plan_rows`), and the values make what the line
//! says; words are cut by `text_lines`. `plan_rules` calls it line by line; `drm_plan` makes a
//! schedule of what the lines say.
//!
//! Which line may stand where, and how often, is in `plan_rules`; lines are written by
//! `plan_writer`.
//!
//! Begin with `read_line` in `src/read.rt` and `made` in `src/makes.rt`. There are no definitions of
//! its own: `says` and `line_said` in `specs/Says.antt` of `plan_grammar` say what is read.
#![tactic(auto)]

mod entities;
mod makes;
mod read;

pub use plan_grammar::{Keyword, Line, LineFault, Version};
pub use read::read_line;
