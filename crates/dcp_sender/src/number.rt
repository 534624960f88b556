//! The sequence numbers of packets.

ghost use Rattle.std.specs.Prelude.{◌≡◌, ◌<◌, ◌^◌};
ghost use Rattle.dcp_sender.specs.Packets.{sequence_of};

/// The sequence number of the packet with this number, where number 0 has the first one.
/// Example: `sequence(65_535, 1)` is 0.
pub fn sequence(first: u16, index: u64) -> u16
    requires { index < 2 ^ 62 }
    ensures { result ≡ sequence_of first index }
{
    ((u64::from(first) + index) % 0x1_0000) as u16
}
