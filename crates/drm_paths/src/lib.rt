//! Several paths (links over different networks) that bring one schedule: each reads its link and
//! hands its datagrams to one book, under a lock, and the report of the book is that of all of
//! them, in the order in which they were taken.
//!
//! It builds on `report_journal`, which enters datagrams and makes their report, and on
//! `drm_links`. `cmd_paths` runs the paths in threads; `law_paths` states what their report says of
//! a schedule.
//!
//! It opens no links and starts no threads (`cmd_paths`), and chooses nothing between the paths: a
//! packet is recovered from the datagrams of all of them, by the journal's collector
//! (`dcp_collect`).
//!
//! Begin with `run_path` (`src/run.rt`) and `Book` (`src/book.rt`). A ledger counts the datagrams
//! that each path took (`Road`, `src/road.rt`, is its type), so that `close_book` (`src/close.rt`)
//! can prove that the book has all of them. `BookCloses` (`specs/Closing.antt`) says what comes of
//! that, `ReadsPath` (`specs/Reading.antt`) when a path has read enough.
#![tactic(auto)]

mod book;
mod close;
mod crossing;
mod path;
mod road;
mod run;
mod shared;

pub use book::Book;
pub use close::{Closed, Difference, close_book, close_paths};
pub use crossing::paths_may_cross_threads;
pub use path::Path;
pub use report_journal::{Ending, Entry, Event};
pub use road::Road;
pub use run::{PathEnded, PathOptions, run_path};
pub use shared::{Given, Paths, Shared, open_paths};
