//! What a configuration tells from one of its super frames on.

use drm_lists::OwnedList;
use drm_sdc::Entities;

/// The blocks of lines of a configuration, in their order.
pub type Blocks = OwnedList<Timed>;

/// Entities that hold from a super frame on, up to the next block of lines or the end of the configuration.
#[derive(Drop)]
pub struct Timed {
    /// The super frame with which they begin to hold, counted from the start of the configuration.
    pub from: u32,
    /// In the order of the lines.
    pub entities: Entities,
}
