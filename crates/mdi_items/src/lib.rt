//! MDI (TS 102 820): one logical frame as TAG items. `read_mdi` reads a payload with its items in
//! any order, or names its first fault; `MdiWriter` writes a frame in one order: `*ptr`, `dlfc`,
//! `fac_`, `sdci`, `robm`, then `sdc_` if there is a block, then the streams `str0` to `str3`.
//! Neither takes memory: a frame that was read is lent out of the payload.
//!
//! Single items are those of `dcp_tag`; the values of `fac_`, `sdci` and `sdc_` are read by
//! `drm_fac`, `drm_mux` and `drm_sdc`. `mod_feed` reads with it, `drm_server` writes; `report_text`
//! and `report_dump` print what it reads.
//!
//! AF packets, sequence numbers and fragments are in `dcp_af` and `dcp_pft`. Items of other names
//! are skipped.
//!
//! Begin with `MdiView` and `read_mdi` in `src/view.rt`; `IsMdi` in `specs/Mdi.antt` says which
//! payload is which frame, `specs/Table.antt` in which order faults are looked for.
#![tactic(auto)]

mod block;
mod fault;
mod known;
mod laws;
mod names;
mod needed;
mod streams;
mod value;
mod view;
mod writer;

pub use fault::MdiFault;
pub use laws::{
    found_values_stand_in_the_payload, frame_or_fault, one_frame, one_spelling, written_is_read,
};
pub use view::{MdiView, SdcSpan, read_mdi};
pub use writer::MdiWriter;
