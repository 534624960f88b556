//! The text of a report of what was received: a line for each frame with its mode, FAC, SDC block,
//! multiplex description and bytes (ES 201 980), lines for missing and bad ones, for
//! reconfigurations and for refused datagrams, and the last line with the counts. Each line is one
//! definition, and one function that writes it to a sink in pieces. The totals of a
//! reading and the room that a report grows in are here too, as is the line that `fac` prints.
//!
//! Items come from `mod_feed`; pieces of text are written by `text_output`. `recv_report` and
//! `report_journal` write reports with it, `cmd_convert` the lines of missing and bad frames,
//! `report_dump` uses its words for faults.
//!
//! What `show` prints of a packet is in `report_dump`. When a report ends is decided in
//! `recv_reading`.
//!
//! Begin with `write_step` in `src/step.rt`; `item_line` in `specs/Report.antt` says the line of an
//! item, `report` in `specs/Reports.antt` the whole text.
#![tactic(auto)]

mod block;
mod buffer;
mod counts;
mod description;
mod fac_line;
mod frame_line;
mod hex_bits;
mod line_writer;
mod report;
mod step;
mod streams;
mod totals;
mod words;

pub use block::block_bits;
pub use buffer::ReportBuffer;
pub use counts::{Refusal, ReportCounts};
pub use fac_line::write_fac;
pub use hex_bits::{digit, write_digits};
pub use line_writer::LineWriter;
pub use recv_reading::EndWord;
pub use report::{Sums, write_end, write_feed, write_refused};
pub use step::write_step;
pub use text_output::{Piece, write_pieces};
pub use totals::{AnswerCounts, Totals};
pub use words::{FaultWords, af_words, mdi_words, pft_words};
