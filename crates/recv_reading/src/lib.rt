//! A reading: datagrams of a link or of a capture are taken one after another, what a collector
//! makes of them is given item by item, and for the first reason that holds (enough frames or
//! datagrams, no datagram for too long, the end of the input) nothing more is read. Whoever
//! receives does it by this crate, and adds what it makes of each item.
//!
//! It stands on the collector (`dcp_collect`), the links (`drm_links`) and the captures
//! (`capture_reader`). `recv_report`, `drm_gate`, `cmd_convert` and `cmd_unpack` read by it.
//!
//! It knows nothing of frames, reports or commands: frames are made of items by `mod_feed`, lines
//! by `report_text`. `report_journal` has its datagrams handed to it, and uses the definitions and
//! `PacketRange` alone.
//!
//! Begin with `Reading` in `src/reading.rt` and `Datagrams` in `src/source.rt`; `ReadingReached` in
//! `specs/ReadingReached.antt` says how far a reading has come, `specs/Ending.antt` when it ends.
#![tactic(auto)]

mod options;
mod reading;
mod reason;
mod source;

pub use options::{Bounds, PacketRange, ReceiveOptions};
pub use reading::Reading;
pub use reason::EndWord;
pub use source::{Datagrams, ReceiveBuffer, SourceFault};
