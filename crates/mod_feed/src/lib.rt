//! Logical frames out of packets, as one modulator gets them: of each packet that a collector
//! gives, the frame that it carries (TS 102 820, in an AF packet of TS 102 821); of each packet
//! that was lost or damaged, a missing or bad item in its place; and before an item the
//! reconfiguration or the resumption that stands there.
//!
//! Packets come from `dcp_collect`, AF packets are read by `dcp_af`, frames by `mdi_items`; where a
//! reconfiguration stands is decided by `drm_reconfiguration`. `recv_report`, `report_journal` and
//! `cmd_unpack` make their frames with it; `report_text` prints them.
//!
//! No datagram is here and no text: see `dcp_collect` and `report_text`. Nothing is modulated.
//!
//! Begin with `Feed::step` in `src/feed.rt` and `FeedItem` in `src/item.rt`; `IsItemOf` in
//! `specs/Items.antt` says which item a packet is. The functions of `src/laws.rt` have empty
//! bodies: their clauses are laws of many steps.
#![tactic(auto)]

mod feed;
mod item;
mod laws;
mod read;
mod seen;

pub use feed::{Feed, Step};
pub use item::{BadFault, FeedItem};
pub use laws::{feeding_joins, one_feeding, one_item, the_feed_tells_the_switches};
