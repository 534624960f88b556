//! Reads the first bytes of an input into a buffer, until the input ends or the buffer is full.
//!
//! It builds on `drm_links` (`Source`) and `cmd_faults` (the fault of a read that failed). It is
//! used by `cmd_pack`, which reads all of its input up to a limit, and by `live_server`, which
//! reads the bytes of live streams frame by frame.
//!
//! Captures are read by `capture_reader`, the nine bytes of a FAC by `cmd_show`, whole files by the
//! `Shelf` of `drm_links`.
//!
//! All of it is `read_front` (`src/reading.rt`). `ReadsFirstBytes` (`specs/Input.antt`) says what
//! was read, `FailsBehind` what is known after a failed read.
#![tactic(auto)]

mod reading;

pub use reading::read_front;
