//! Laws of what is sent over several links: what was to be answered leaves one history
//! (`one_history`), over each link goes what would go over it alone (`each_alone`), one address
//! after another isn't frame by frame (`one_by_one_differs`), and links to which a schedule is sent
//! stay together: at each moment all datagrams of the same frames have gone over each link that
//! hasn't failed, and some first ones of the next frame, so that none is more than one frame ahead
//! of another (`links_stay_together`); after a frame's turn the same has gone over each
//! (`after_each_turn`). The functions do nothing: their clauses are the laws.
//!
//! They are laws of `CallsCome` and `EventsHappen` of `drm_links` and of `FramesCome` of
//! `drm_server`. No crate stands on this one.
//!
//! That a run leaves such a history is the contract of `serve_live_links` in `live_server` and of
//! `serve` in `cmd_serve`; what arrives at a receiver is in `law_delivery`.
//!
//! Begin with `LinksStayTogether` in `specs/Laws.antt`.
#![tactic(auto)]

mod laws;

pub use laws::{after_each_turn, each_alone, links_stay_together, one_by_one_differs, one_history};
