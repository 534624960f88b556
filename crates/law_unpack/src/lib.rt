//! Laws of the commands `unpack` and `texts`: of a delivery of a schedule, a stream of which
//! carries the packets of units, `unpack` prints exactly the units for which each frame was given
//! (`unpacks_deliveries`); of a delivery of any schedule `texts` prints exactly the messages in the
//! frames that were given (`texts_of_deliveries`). Each function of `src/laws.rt` has an empty body
//! or only calls other laws: its clause is the law, and nothing runs.
//!
//! What is printed is defined in `cmd_unpack`; the laws rest on `law_data`, `law_text` and
//! `law_delivery`. No crate stands on this one.
//!
//! How a run ends, and what is read of the capture, is said by `cmd_unpack`.
//!
//! Begin with `CarriesUnits` and `UnpacksDeliveries` in `specs/Delivered.antt`, then
//! `TextsOfDeliveries` in `specs/Texts.antt`.
#![tactic(auto)]

mod laws;

pub use laws::{
    gives_what_frames_bring, texts_of_deliveries, unpacks_deliveries, unpacks_what_is_whole,
};
