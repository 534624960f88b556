//! The outside of a run, as six traits: `Shelf` (files by name), `Source` and `Sink` (bytes read
//! and written), `Link` (datagrams), `Group` (several links, in one order), `Dock` (where these are
//! opened). An object of one has a count
//! of faults, and is observable if contracts can refer to its contents. The forms in memory, which
//! are, stand in for the real ones.
//!
//! It builds on `drm_bits` and `drm_lists`. It is used by all that reads, writes, sends or
//! receives.
//!
//! The real files, streams and sockets are in `drm_adapt`. `recv_reading` decides when the reading of a link ends; `text_output` writes
//! texts in pieces.
//!
//! Begin with `Link` (`src/link.rt`) and `MemLink` (`src/memory_link.rt`). `Known`
//! (`specs/Known.antt`) is what is known of an object, with the words in which all clauses of the
//! outside are written; then `LinkReceives` and `LinkSends` (`specs/Link.antt`), and what a dock
//! knows of its openings (`specs/Dock.antt`).
#![tactic(auto)]

mod book;
mod dock;
mod docked_link;
mod failing;
mod front;
mod gathering;
mod group;
mod kept_datagram;
mod link;
mod member;
mod memory_dock;
mod memory_group;
mod memory_link;
mod memory_shelf;
mod memory_sink;
mod memory_source;
mod shelf;
mod sink;
mod source;
mod status;
mod writing;

pub use dock::{Address, Addresses, Dock, GatheredGroup, Opened};
pub use docked_link::DockedLink;
pub use group::{Group, none_up};
pub use link::{Came, LONGEST_DATAGRAM, Link, LinkFault, Sent};
pub use member::Member;
pub use memory_dock::{MemDock, PutFault};
pub use memory_group::MemGroup;
pub use memory_link::MemLink;
pub use memory_shelf::MemShelf;
pub use memory_sink::MemSink;
pub use memory_source::MemSource;
pub use shelf::{Loaded, Shelf};
pub use sink::{Sink, WriteFault, WriteOut};
pub use source::{ReadOut, Source};
pub use status::Status;
pub use writing::write_all;
