//! The journal of several paths (networks that bring the same schedule): the datagrams of all of
//! them in the order in which they were entered, and the one report of all, which grows with each.
//! It has no thread and no lock.
//!
//! Datagrams become packets by one collector (`dcp_collect`), packets become frames by `mod_feed`,
//! and lines and counts are those of `report_text`. `drm_paths` puts a journal under a lock that
//! all paths share; `cmd_paths` writes its report.
//!
//! Nothing is read from a link here: see `drm_paths`. The report of a single link is made by
//! `recv_report`. What the report says of a schedule's datagrams is in `law_paths`.
//!
//! Begin with `Journal::enter` in `src/journal.rt`; `IsReportOf` in `specs/Report.antt` says which
//! text is the report of which datagrams, `specs/Journal.antt` what a journal keeps.
#![tactic(auto)]

mod ending;
mod event;
mod journal;
mod lines;

pub use ending::Ending;
pub use event::Event;
pub use journal::{Entry, Journal};
