//! What `show` prints of a packet of a capture, whatever its bytes are: a line for a fragment (TS
//! 102 821); or lines for an AF packet, its TAG items, and the logical frame in it (TS 102 820)
//! with its FAC, multiplex description and SDC block (ES 201 980); or a line that says what is
//! wrong. It is written to a sink piece by piece, without memory.
//!
//! The bytes are read by the crates of the formats (`dcp_pft`, `dcp_af`, `dcp_tag`, `mdi_items`,
//! `drm_sdc`); the line of a FAC and the words for faults are those of `report_text`. `cmd_show`
//! prints with it, `drm_show` re-exports it.
//!
//! Packets are found in a capture by `capture_reader`. Nothing is reassembled: lost packets have no
//! line here, but in a report (`report_text`).
//!
//! Begin with `write_packet` in `src/packet.rt`; `packet_text` in `specs/Text.antt` says which
//! lines a packet has, `specs/Lines.antt` each line.
#![tactic(auto)]

mod bad;
mod block;
mod end;
mod fragment;
mod frame;
mod laws;
mod mux;
mod packet;
mod tags;
mod whole;

pub use end::write_end_packets;
pub use laws::one_text;
pub use packet::{ShowFault, write_packet};
