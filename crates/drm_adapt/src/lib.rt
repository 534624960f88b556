//! Files, streams and UDP sockets of the system under the traits of `drm_links` (`Shelf`, `Source`,
//! `Sink`, `Dock`, `Link`). They aren't observable, so contracts know of them only how many calls
//! failed.
//!
//! It builds on `drm_links`, `cli_notices` and the standard library's files, streams and sockets. It
//! is used by `drmcast` and `drmpaths`, in `main`, and by tests.
//!
//! The forms in memory, which are observable, are in `drm_links`. IPv4 unicast alone: host names,
//! IPv6 and multicast are nowhere.
//!
//! Begin with `UdpLink` (`src/udp_link.rt`); when its rests end is in `src/pace.rt`. Which refusals
//! of the system are lost datagrams and which are faults, and what a person is told, is in
//! `cli_notices`.
//! `StreamReads` (`specs/Streams.antt`) and `HoldsFile` (`specs/Files.antt`) say what is read if
//! the contents are known.
#![tactic(auto)]

mod file_shelf;
mod pace;
mod streams;
mod udp_dock;
mod udp_group;
mod udp_link;

pub use file_shelf::FileShelf;
pub use streams::{StreamSink, StreamSource};
pub use udp_dock::UdpDock;
pub use udp_group::UdpGroup;
pub use udp_link::UdpLink;
