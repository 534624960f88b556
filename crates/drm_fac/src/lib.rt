//! The Fast Access Channel (FAC) of Digital Radio Mondiale (ES 201 980, "Fast Access Channel"):
//! what a receiver reads first in each logical frame, as the parameters of the channel and of one
//! service. Beside it the robustness mode, and the order in which services take turns in the FAC.
//!
//! It builds on `drm_bits` (fields, the check value). It is used by `mdi_items` (the `fac_` item),
//! `drm_timeline` (the FAC of each frame of a schedule), `drm_reconfiguration`, `report_text` and
//! `report_dump`.
//!
//! It doesn't say which FAC a frame has: `fac_at` of `drm_timeline` does. The FAC as a line of text
//! is in `report_text`, the command `fac` in `cmd_show`; reconfigurations are followed by
//! `drm_reconfiguration`.
//!
//! Begin with `decode` and `encode` (`src/fac.rt`). `IsFac` (`specs/Fac.antt`) is the format, a
//! table of fields; `service_at` (`specs/Pattern.antt`) the order of services.
#![tactic(auto)]

mod channel;
mod fac;
mod mode;
mod order;
mod service;
mod services;

pub use channel::Channel;
pub use fac::{Fac, FacFault, decode, encode};
pub use mode::Mode;
pub use order::{Slot, pattern};
pub use service::Service;
pub use services::{counts, services_code};
