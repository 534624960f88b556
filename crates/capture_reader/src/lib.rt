//! Reads captures: AF packets and PFT fragments (TS 102 821) one after another with nothing between
//! them, as a file or a pipe has them. Where a packet ends is decided by its header alone, however
//! the bytes come in pieces.
//!
//! It builds on `dcp_af` and `dcp_pft`, which say how long the packet is that begins with some
//! bytes (`described_len`, `size_by_head`), and on `drm_links`, whose `Source` is the input. It is
//! used by `recv_reading`, `recv_report`, `report_dump` and the commands that read captures.
//!
//! It doesn't judge what is behind a header (`read_af` of `dcp_af`, `read_fragment` of `dcp_pft`),
//! puts no fragments together (`dcp_collect`), and writes no capture (`drm_server`, `dcp_sender`).
//!
//! Begin with `Packets` (`src/packets.rt`), which reads an input, and with `Walker`
//! (`src/walker.rt`), which is given the bytes. `IsCaptureOf` (`specs/Capture.antt`) says what a
//! capture is, `BytesBegin` (`specs/Front.antt`) what some bytes begin with. The functions in
//! `src/laws.rt` do nothing: each is a law.
#![tactic(auto)]

mod fault;
mod laws;
mod look;
mod packet;
mod packets;
mod walker;

pub use fault::{CaptureFault, CaptureField};
pub use laws::{fronts_stay, one_front, read_one_way, read_some_way, walks_captures};
pub use packet::Packet;
pub use packets::{CaptureStop, Packets};
pub use walker::Walker;
