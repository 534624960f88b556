//! Laws of the command `convert`: if each frame of a schedule is in time, the capture of the
//! schedule is converted to its capture under another carry (`captures_are_converted`), and no
//! packet of it is too large for that carry if none of the schedule's packets is
//! (`none_is_too_large`). A frame is in time if no more of its fragments are missing than its
//! protection recovers when its packet is closed. Each function of `src/laws.rt` only calls other
//! laws: its clause is the law, and nothing runs.
//!
//! The conversion is that of `cmd_convert`, the schedule's capture that of `drm_server`, deliveries
//! are those of `law_delivery`. `law_gate` uses the definitions.
//!
//! What is written of a frame that isn't in time is said by the contract of `cmd_convert`.
//!
//! Begin with `AllInTime` and `CapturesAreConverted` in `specs/Laws.antt`.
#![tactic(auto)]

mod laws;

pub use laws::{
    captures_are_converted, conversions_are_captures, none_is_too_large, the_first_number_is_known,
};
