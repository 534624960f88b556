//! Text messages: 1 to 128 bytes of UTF-8, cut into segments and these into pieces of four bytes,
//! one a frame, and joined again (this project's own profile).
//!
//! It builds on `drm_bits` (the check value of a segment). `cmd_unpack` joins the messages in a
//! stream of a capture; `law_text` states what a joiner gives, also of pieces with losses.
//!
//! It knows no streams and no frames: `cmd_unpack` takes the last four bytes of a stream in each
//! frame. No command makes text messages (`tools/messages.py` does). Units of any bytes are another
//! format: `drm_data`.
//!
//! Begin with `text_piece` (`src/piece.rt`) and `TextJoiner` (`src/joiner.rt`). `IsPieceOf`
//! (`specs/Message.antt`) says what the pieces of a message are, `after` (`specs/Joining.antt`)
//! what a piece makes of a joiner. `only_starts` (`src/laws.rt`) does nothing: its clause is a law.
#![tactic(auto)]

mod gather;
mod joiner;
mod laws;
mod message;
mod piece;
mod read;
mod segment;

pub use joiner::TextJoiner;
pub use laws::only_starts;
pub use piece::text_piece;
