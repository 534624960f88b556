//! What is wrong with words that are no command line, for a person: which word has no place, or which
//! is missing, and what could stand there. The programs say it in one line behind the refusal.
//!
//! It builds on `cli_syntax`, which reads a single word. It is used by `drmcast` and `drmpaths`, in
//! `main`, once the words have been refused.
//!
//! It decides nothing: that words are refused is up to `drm_words` and `cli_paths`, and nothing is
//! proved of what is said here but that it is said safely. That its table has their commands, options
//! and ranges is tested in `test_schedule`. It guesses at no similar word.
//!
//! Begin with `Mistake` (`src/mistake.rt`), then `COMMANDS` (`src/commands.rt`).
#![tactic(auto)]

mod commands;
mod find;
mod mistake;
mod value;

pub use commands::Command;
pub use find::{paths_mistake, words_mistake};
pub use mistake::{Expected, Mistake};
pub use value::{Allowed, Value};
