//! The multiplex description as the value of an `sdci` item (TS 102 820), and the multiplex frame
//! (ES 201 980) that it makes of up to four streams: the parts A of all streams, which have the
//! higher protection, then their parts B.
//!
//! It builds on `drm_bits`, which has the description itself (`MuxDesc`). It is used by
//! `mdi_items`, which reads and writes the item, by `report_text`, which prints the multiplex
//! frame, and by `report_dump`, which prints the description.
//!
//! The description as an SDC entity is in `drm_sdc`. `drm_timeline` determines which description a
//! schedule's frame has, `drm_server` the bytes of its streams.
//!
//! Begin with `read_sdci` (`src/sdci.rt`) and `assemble` (`src/streams.rt`). `IsSdci`
//! (`specs/Sdci.antt`) is the value's format, `multiplex_frame` (`specs/Frame.antt`) the frame.
#![tactic(auto)]

mod fault;
mod frame;
mod sdci;
mod splitting;
mod streams;

pub use drm_bits::{MuxDesc, Part};
pub use fault::MuxFault;
pub use frame::{Spans, frame_len};
pub use sdci::{read_sdci, write_sdci};
pub use splitting::split;
pub use streams::{assemble, check_streams, locate, range};
