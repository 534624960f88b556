//! The commands of `drmcast`: one call, `run`, that takes the words of a command line and the
//! outside (files, input, outputs, links), and answers a status. Its contract specifies a whole run
//! of any command.
//!
//! It builds on `drm_words` (what the words ask for), the crates of the commands (`cmd_`), and
//! `drm_links` (the traits of the outside). `drmcast` calls it with the system's files and sockets,
//! tests with those in memory.
//!
//! It does no command itself: each is in its crate, with the record of its run there. `drmpaths` is
//! another program, with its own call in `cmd_paths`. The lines and statuses of faults are in
//! `cmd_faults`.
//!
//! Begin with `run` (`src/command.rt`). `CommandRun` (`specs/Command.antt`) has a line for each
//! command, with its record; `HeadlineOfRun` (`specs/Headline.antt`) says what a report of
//! `receive` or `air` means if the datagrams were those of a schedule.
#![tactic(auto)]

mod command;
mod words;

pub use command::{no_memory, run};
pub use drm_links::Status;
pub use recv_reading::ReceiveOptions;
pub use recv_report::{Ended, Options, one_reading_of_a_link, one_report, receive_one};
pub use report_text::Refusal;
