//! TAG items of DCP (TS 102 821): names with values of any number of bits, one after another in a
//! payload. They are lent out of the payload, and written into a buffer that the caller lends.
//!
//! It builds on `drm_bits`. It is used by `mdi_items`, which reads and writes the items of a
//! logical frame, and by `report_dump`, which prints the items of any packet.
//!
//! What the values of items say is known to `mdi_items` and the formats below it (`drm_fac`,
//! `drm_sdc`, `drm_mux`). The packet around a payload is in `dcp_af`.
//!
//! Begin with `Items` (`src/items.rt`) and `write_item` (`src/write.rt`). `IsPayload`
//! (`specs/Tag.antt`) says which bytes are which items. The laws in `src/laws.rt`, functions that
//! do nothing, say that a payload has one list of items and an item one written spelling.
#![tactic(auto)]

mod head;
mod items;
mod laws;
mod write;

pub use items::{Item, Items, ValueCut};
pub use laws::{
    cut_is_none, given_items_are_the_payloads, one_list_of_items, one_written_spelling,
    written_is_a_spelling,
};
pub use write::write_item;
