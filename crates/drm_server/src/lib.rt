//! The packets of a schedule and the datagrams that carry them, one frame at a time: to a sink (a
//! capture), or over a group of links, with a rest before each but the first. A frame may be given
//! the bytes of its live streams.
//!
//! It builds on `drm_timeline` (the FAC, the block and the numbers of each frame), `mdi_items` and
//! `dcp_af` (the packet), `dcp_sender` (fragments) and `live_streams`. It is used by `cmd_serve`,
//! `cmd_air` and `live_server`; `law_delivery` starts from what it sends.
//!
//! It reads no files and no input (`cmd_load`, `live_server`), opens no links (`cmd_serve`), and
//! has no clock: a rest is `rest` of a `Group`, for UDP in `drm_adapt`. Nothing is modulated.
//!
//! Begin with `Server` (`src/server.rt`), then `write_packet` (`src/packet.rt`) and `serve_frame`
//! (`src/send.rt`); `CutFrame` (`src/cut_frame.rt`) is a frame that is looked at and not sent.
//! `IsFrameAt` (`specs/Frames.antt`) is the frame of a schedule, `AreDatagrams`
//! (`specs/Datagrams.antt`) what carries a stretch of them (`Stretch`, `src/stretch.rt`),
//! `FramesCome` (`specs/Serving.antt`) what comes of sending some. Functions in `src/laws.rt` do
//! nothing: each is a law.
#![tactic(auto)]

mod cut_frame;
mod laws;
mod loaded;
mod packet;
mod payload;
mod send;
mod serve;
mod server;
mod stream;
mod stretch;

pub use cut_frame::CutFrame;
pub use laws::{
    first_ones_are_prefix, one_capture, one_delivery, one_frame, one_packet,
    streams_make_the_multiplex_frame,
};
pub use send::serve_frame;
pub use serve::{serve_sink, write_frame};
pub use server::Server;
pub use stretch::Stretch;
