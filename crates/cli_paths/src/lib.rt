//! The command line of the program `drmpaths`, read with `clap` as one simple command: two to four
//! addresses, and the options `window`, `reach`, `first`, `frames`, `idle` and `limit`.
//!
//! It builds on `cli_syntax`, which reads a single address or number (`read_addresses`, `within`),
//! so that both programs spell them alike. It is used by `cmd_paths`.
//!
//! The command line of `drmcast` is read by `drm_words`. The words themselves come from
//! `cli_program`, and what is done with a request is in `cmd_paths`.
//!
//! Begin with `read_paths` (`src/read.rt`) and its result, `PathsRequest` (`src/request.rt`).
//! `IsPaths` (`specs/Table.antt`) is the table of the options with their defaults and ranges.
//! `one_request` does nothing: its clause says that at most one request fits the words.
#![tactic(auto)]

mod command;
mod numbers;
mod read;
mod request;
mod texts;

pub use read::{one_request, read_paths};
pub use request::PathsRequest;
