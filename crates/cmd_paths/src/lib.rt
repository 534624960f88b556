//! The run of the program `drmpaths`: a link is opened at each of two to four addresses, each is
//! read by a path in a thread of its own, and the report of all that came is written, as if one
//! receiver had received it.
//!
//! It builds on `drm_paths` (paths, and the book that they share), `report_journal` (the report of
//! the book), `cli_paths` (the command line) and `text_output`. It is used by `drmpaths`.
//!
//! `drm_paths` has what a path does with a datagram, and how a book is closed. What the report says
//! of a schedule's datagrams is stated by `law_paths`. `drmcast receive` with several addresses
//! writes a report for each: `cmd_receive`.
//!
//! Begin with `run_paths` (`src/command.rt`), then the threads (`src/receiver.rt`). `PathsRun`
//! (`specs/Run.antt`) is a whole run, `PathsFault` (`src/fault.rt`) why it ends early.
#![tactic(auto)]

mod command;
mod fault;
mod open;
mod receiver;

pub use command::{no_memory, run_paths};
pub use fault::PathsFault;
