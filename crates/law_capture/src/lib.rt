//! A law of captures, files of datagrams one after another: packets that some bytes begin with, no
//! more than 4,294,967,295 bytes of them, are the first packets of the capture that these bytes
//! are. `packets_in_front` in `src/laws.rt` states it: its body is empty, its clause is the law,
//! and nothing runs.
//!
//! What a capture is stands in `capture_reader`. `cmd_convert`, `cmd_unpack` and `law_convert` call
//! the law for its clause, since a run may stop before the end of its input.
//!
//! The laws that reading itself needs, as that bytes are a capture in one way, are in
//! `capture_reader` (`read_one_way`).
//!
//! Begin with `PacketsInFront` in `specs/Laws.antt`, and `IsCaptureOf` in `specs/Capture.antt` of
//! `capture_reader`.
#![tactic(auto)]

mod laws;

pub use laws::packets_in_front;
