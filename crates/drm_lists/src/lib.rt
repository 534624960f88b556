//! Lists of owned values, which contracts see as lists.
//!
//! It builds on `drm_bits` (`NoMemory`). It is used by `drm_links` (addresses), `drm_schedule`
//! (services, streams, configurations, blocks) and `drm_paths` (paths).
//!
//! Lists of bytes are `Octets` of `drm_bits`; entities and frequencies of the SDC have lists of
//! their own in `drm_sdc` (`Entities`, `Channels`).
//!
//! All of it is `OwnedList` (`src/items.rt`). `lends_item` (`specs/OwnedList.antt`) says what a
//! list becomes by a `&mut` to one of its values.
#![tactic(auto)]

mod items;

pub use items::OwnedList;
