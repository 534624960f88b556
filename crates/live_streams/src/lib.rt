//! Live streams: streams of a schedule that take their bytes from an input, frame by frame. It says
//! how many bytes a frame asks for (`piece_len`), which of them are whose, and which schedule they
//! make: one that has, in the place of each live stream, a file of the bytes that came, and of its
//! own bytes where none came.
//!
//! Schedules and frames are those of `drm_schedule` and `drm_timeline`. `drm_server` loads a frame
//! with its bytes, `live_server` reads them.
//!
//! Nothing is read or sent here: see `live_server`. The words of `--live` are read in `drm_words`.
//!
//! Begin with `live_schedule` in `specs/Live.antt`; `piece_len` is in `src/piece.rt`. The functions
//! of `src/laws.rt` have empty bodies: their clauses state that such a schedule is valid, and
//! nothing runs.
#![tactic(auto)]

mod laws;
mod piece;

pub use laws::{input_makes_a_schedule, live_is_a_schedule};
pub use piece::{MOST_PIECE, piece_len};
