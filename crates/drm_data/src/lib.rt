//! Packets of data: units (files, messages) of up to 65,535 bytes are cut into packets of one
//! length, each with the id of its service, its continuity and a check value, and joined again
//! (this project's own profile).
//!
//! It builds on `drm_bits` (the check value). `cmd_pack` makes packets, `cmd_unpack` joins them;
//! `law_data` states what a joiner gives, also of packets with losses.
//!
//! It knows no streams and no frames: a schedule says in which stream of a multiplex the packets
//! are (`drm_schedule`), and `cmd_unpack` takes them out of frames. The file of units that `pack`
//! reads is in `cmd_pack`. Text messages are another format: `drm_text`.
//!
//! Begin with `read_packet` (`src/packet.rt`), `Packer` (`src/packer.rt`) and `Joiner`
//! (`src/joiner.rt`). `IsPacket` (`specs/PacketFields.antt`) says which bytes are a packet,
//! `answer` and `after` (`specs/Joining.antt`) what a joiner answers and becomes.
#![tactic(auto)]

mod fault;
mod joined;
mod joiner;
mod packer;
mod packet;
mod unit_buffer;
mod write;

pub use fault::DataFault;
pub use joined::Joined;
pub use joiner::Joiner;
pub use packer::Packer;
pub use packet::{DataPacket, read_packet};
