//! One of several links.

use crate::Link;

/// A link, and whether it hasn't failed. One that has is asked for nothing any more.
#[derive(Drop)]
pub struct Member<L: Link> {
    pub link: L,
    pub up: bool,
}
