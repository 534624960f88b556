//! The line that a report has of a frame of a schedule, said by the schedule alone: its count
//! (`dlfc`), its mode, FAC, SDC block, multiplex description and multiplex frame (ES 201 980).
//! `served_frames_are_printed` states that where an item is such a frame its printed line is this
//! one, `one_line` that a frame has one line under each number. Both have an empty body: the clause
//! is the law, and nothing runs.
//!
//! The line that is printed is defined in `report_text`; what it is for an item to be the server's
//! frame, in `law_delivery`. `recv_report` and `law_gate` call the first law for its clause.
//!
//! All other lines of a report (`missing`, `bad`, `switch`, `end`) are only in `report_text`.
//!
//! Begin with `IsFrameLine` in `specs/Line.antt`.
#![tactic(auto)]

mod laws;

pub use laws::{one_line, served_frames_are_printed};
