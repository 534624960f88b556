//! The words of the command line of `drmcast`: which command they ask for, with its plain words and
//! options, or that they ask for nothing.
//!
//! It builds on `cli_syntax`, which reads a single word (option, number, address, carry). It is
//! used by `drm_top`.
//!
//! What a command does with its request is in its crate (`cmd_`). The command line of `drmpaths` is
//! read by `cli_paths`. The words come from `cli_program`. There is no help text to print.
//!
//! Begin with `Request` (`src/request.rt`) and `read_words` (`src/read.rt`). `IsRequest`
//! (`specs/Table.antt`) is the table of the commands: the plain words and options of each, with
//! ranges and defaults. `one_request` does nothing: its clause says that at most one request fits
//! the words.
#![tactic(auto)]

mod asked;
mod commands;
mod options;
mod packets;
mod read;
mod receiving;
mod request;
mod sending;

pub use cli_syntax::WordsFault;
pub use drm_links::Addresses;
pub use read::{one_request, read_words};
pub use request::Request;
