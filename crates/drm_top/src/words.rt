//! What a command takes of its request.

ghost use Rattle.std.specs.Prelude.{◌≡◌, IsUtf8};
ghost use Rattle.recv_reading.specs.Values.{receive_options, packet_range};

use drm_bits::Octets;
use recv_reading::{PacketRange, ReceiveOptions};

/// By what a request with these numbers receives.
pub(crate) fn options_of(
    window: u8,
    reach: u16,
    first: Option<u16>,
    frames: Option<u64>,
    idle: u32,
    limit: u32,
) -> ReceiveOptions
    ensures { result ≡ receive_options window reach first frames idle limit }
{
    ReceiveOptions {
        window,
        reach,
        first,
        frames,
        idle,
        limit,
    }
}

/// Which packets of a capture a request with these numbers receives.
pub(crate) fn range_of(
    window: u8,
    reach: u16,
    first: Option<u16>,
    frames: Option<u64>,
) -> PacketRange
    ensures { result ≡ packet_range window reach first frames }
{
    PacketRange {
        window,
        reach,
        first,
        frame_limit: frames,
    }
}

/// The name as text.
pub(crate) fn text(name: &Octets) -> &str
    requires { IsUtf8 name.now }
    ensures { result.now ≡ name.now }
{
    name.as_text().unwrap()
}
