//! Links for tests of what works side by side: all but the last bring nothing before that one was
//! asked, so a program that reads one link after another never ends. Beside them are the packets
//! that they bring, and what receivers print of these.
//!
//! It stands on the traits of `drm_links` alone. `test_top` uses it for receivers side by side,
//! `test_paths` for paths side by side.
//!
//! It has no tests of its own, and the links in memory that cases use aren't here: these are
//! `MemLink` and `MemDock` of `drm_links`.
//!
//! Begin with `GatedDock` in `src/dock.rt`; `packets.rt` has the datagrams and the expected
//! reports.
#![tactic(auto)]

mod dock;
mod link;
mod packets;

pub use dock::{GatedDock, Share};
pub use link::GatedLink;
pub use packets::{reports, words_of};
