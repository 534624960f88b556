//! What is printed of what was received, in one place for programs that print it themselves: the
//! FAC line, the lines of a report, and what of a capture is shown. No code: it re-exports names of
//! other crates.
//!
//! The code is in `report_text` (the FAC line, a report), `report_dump` (a packet of a capture) and
//! `capture_reader` (`Walker`, which cuts packets out of bytes). The crates of `drmcast` use those
//! three directly, and none uses this one.
//!
//! The commands `fac` and `show` are in `cmd_show`.
//!
//! Begin with `write_step` of `report_text` (`src/step.rt` there) and `write_packet` of
//! `report_dump`.
#![tactic(auto)]

pub use capture_reader::{CaptureFault, CaptureField, Packet, Walker};
pub use report_dump::{ShowFault, write_packet};
pub use report_text::{
    EndWord, Piece, Sums, write_end, write_fac, write_feed, write_pieces, write_refused, write_step,
};
