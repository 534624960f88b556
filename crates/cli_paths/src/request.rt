//! What a command line asks for.

use drm_links::Addresses;

/// What a command line asks for.
#[derive(Drop)]
pub struct PathsRequest {
    /// Two to four, all different.
    pub addresses: Addresses,
    /// 1 to 64.
    pub window: u8,
    /// 1 to 32,767.
    pub reach: u16,
    /// The first sequence number, where it is told.
    pub first: Option<u16>,
    /// 1 to 3,000,000.
    pub frames: Option<u64>,
    /// 1 to 1,000,000.
    pub idle: u32,
    /// 1 to 1,000,000.
    pub limit: u32,
}
