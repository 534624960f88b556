//! Text as it is written: pieces (words, numbers in decimal, bytes in hex) go to a sink one after
//! another, without memory. Room for text that is gathered first, so that it goes out in one call,
//! is here too: `Lines` for the lines of one item, `Gathered` for short texts that wait for the
//! next ones.
//!
//! Sinks are those of `drm_links`; digits are made by `hex` and `itoa`. `report_text` and
//! `report_dump` write their lines with it, `cmd_faults` the lines on standard error, and the
//! commands their last lines.
//!
//! What a line says is never said here, but in `report_text`, `report_dump` and `cmd_faults`. Text
//! is read by `text_lines`.
//!
//! Begin with `Piece` in `src/piece.rt` and `write_pieces` in `src/output.rt`; `specs/Text.antt`
//! says which bytes a piece is.
#![tactic(auto)]

mod digits;
mod gathered;
mod lines;
mod output;
mod piece;

pub use gathered::Gathered;
pub use lines::LineBuffer;
pub use output::{write_hex, write_piece, write_pieces};
pub use piece::Piece;
