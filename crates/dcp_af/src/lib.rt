//! AF packets of DCP (TS 102 821): a payload of TAG items with a sequence number and a check value.
//! Read, the payload is lent out of the packet; written, the packet is made around the payload in
//! its place. Major revision 1 is read, with any minor revision, and with a check value or without.
//!
//! It builds on `drm_bits` (the check value). `drm_server` writes these packets; `dcp_collect`,
//! `mod_feed`, `drm_gate`, `cmd_convert` and `report_dump` read them; `capture_reader` finds where
//! one ends.
//!
//! What is in the payload is read by `dcp_tag` and `mdi_items`. A packet is cut into fragments by
//! `dcp_pft`, and sent by `dcp_sender`.
//!
//! Begin with `read_af` (`src/read.rt`) and `write_af` (`src/write.rt`). `IsAf`
//! (`specs/Packet.antt`) says which bytes are a packet, `IsFault` (`specs/Faults.antt`) which fault
//! is the first one of bytes that are none.
#![tactic(auto)]

mod fault;
mod head;
mod read;
mod write;

pub use fault::AfFault;
pub use head::described_len;
pub use read::{Af, payload_of, read_af};
pub use write::write_af;
