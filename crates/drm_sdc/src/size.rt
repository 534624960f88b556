//! How many bytes a body has.

ghost use Rattle.std.specs.Prelude.{◌≡◌, ◌<◌};
ghost use Rattle.drm_sdc.specs.Bodies.{body_length};

use crate::{AppMode, Body};

pub fn body_size(body: &Body) -> usize
    requires { body_length body.now < 128 }
    ensures { result ≡ body_length body.now }
{
    match body {
        Body::Mux { desc } => 3 * usize::from(desc.count),
        Body::Label { text, .. } => text.as_slice().len(),
        Body::Freq {
            restriction,
            region,
            list,
            ..
        } => usize::from(restriction.is_some()) + usize::from(region.is_some()) + 2 * list.len(),
        Body::When { .. } => 4,
        Body::App { packet, bytes, .. } => match packet {
            AppMode::Sync { .. } => 1 + bytes.as_slice().len(),
            AppMode::Packet { .. } => 2 + bytes.as_slice().len(),
        },
        Body::Time { extra, .. } => 3 + usize::from(extra.is_some()),
        Body::Audio { config, .. } => 2 + config.as_slice().len(),
        Body::Next { .. } => 2,
        Body::Language { .. } => 5,
        Body::Raw { bytes, .. } => bytes.as_slice().len(),
    }
}
