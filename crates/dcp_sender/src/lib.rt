//! Sends packets: the parity of a packet and its fragments (PFT, TS 102 821), or the packet whole,
//! written to a sink, or sent over links one after another. A packet is cut once, however many
//! links there are.
//!
//! It builds on `dcp_pft`, which says how a packet is cut and makes parity and fragments, and
//! `drm_links` (`Sink`, and `Group`: links of which one that fails is left out). `Outlets`
//! (`src/outlets.rt`) are links that it sends over: each group, and others of which each link tells
//! for itself. It is used by `drm_server`, `cmd_convert` and `drm_gate`.
//!
//! It makes no packets (`drm_server` with `mdi_items` and `dcp_af`) and doesn't wait between frames
//! (`drm_server`; `drm_adapt`). Fragments are put together again by `dcp_collect`.
//!
//! Begin with `PacketSender` (`src/sender.rt`), then `CutPacket` (`src/datagrams.rt`): what a packet
//! is cut into, one datagram behind another, for any number of links. `CarriesText`
//! (`specs/CarriesText.antt`) says what is written of a packet, `SendsPacket` (`specs/OverLinks.antt`)
//! what is sent of it over several links.
#![tactic(auto)]

mod datagrams;
mod layout;
mod number;
mod outlets;
mod send;
mod sender;

pub use datagrams::CutPacket;
pub use layout::MOST_ROOM;
pub use number::sequence;
pub use outlets::Outlets;
pub use sender::PacketSender;
