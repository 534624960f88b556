//! Texts as they are read: bytes as a text of at most 262,144 bytes of UTF-8, a text as lines, a
//! line as words, and words as numbers and bytes. Only the space (0x20) parts words, so a tab or a
//! carriage return belongs to a word. What schedules and scripts have in common stands here: the
//! limit, comments, and how the first fault of the lines is found.
//!
//! Bytes with an owner are those of `drm_bits`. `plan_grammar`, `plan_lines` and `plan_rules` read
//! schedules with it, `plan_script` scripts, and `cmd_load` takes its limit.
//!
//! No keyword is here: see `plan_grammar` and `plan_script`. Words of a command line are read by
//! `cli_syntax`, and text is written by `text_output`.
//!
//! Begin with `readable` and `lines` in `src/text.rt`, `words` in `src/line.rt`; `specs/Lines.antt`
//! says what lines and words are, `specs/Numbers.antt` which words are numbers.
#![tactic(auto)]

mod hex_digits;
mod line;
mod numerals;
mod rest_of_line;
mod text;

pub use hex_digits::{bytes, hex};
pub use line::{is_comment, words};
pub use numerals::number;
pub use rest_of_line::behind_two_words;
pub use text::{LONGEST_TEXT, NoText, bad_line, lines, readable};
