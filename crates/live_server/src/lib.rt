//! A server of a schedule whose live streams take their bytes from an input, one frame at a time:
//! to a sink, as a capture, or over a group of links. A frame is sent before anything is read for
//! the next one. Once the input ends, the schedule's own content goes on. Over links a schedule
//! without live streams is the case of none.
//!
//! The frames and their packets are those of `drm_server`; which bytes of the input belong to which
//! frame and stream is said by `live_streams`; bytes are read by `cmd_input`. The command `serve`
//! with `--live` runs it (`cmd_serve`).
//!
//! A schedule without live streams is written to a sink by `serve_sink` of `drm_server`. Groups are
//! opened and closed in `cmd_serve`.
//!
//! Begin with `serve_feed` in `src/live_links.rt`, which `serve_live_links` calls: `TurnsTold` in
//! `specs/Turns.antt` says in which order it reads and sends. `specs/Loading.antt` says which bytes a
//! frame is loaded with, `ServedLive` in `specs/Links.antt` and `WroteLive` in `specs/Capture.antt`
//! what a run comes to. The function in `src/laws.rt` does nothing: it is a law.
#![tactic(auto)]

mod feed;
mod feeding;
mod laws;
mod live_capture;
mod live_links;

pub use feed::{LiveFeed, Pieces};
pub use feeding::piece_room;
pub use laws::none_is_the_schedule;
pub use live_capture::serve_live_sink;
pub use live_links::{serve_feed, serve_live_links};
