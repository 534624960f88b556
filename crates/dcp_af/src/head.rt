//! The ten bytes before the payload, and where each field of them stands.

ghost use Rattle.std.specs.Prelude.{◌≡◌, ◌≤◌, length};
ghost use Rattle.dcp_af.specs.Faults.{described};
ghost use Rattle.dcp_af.specs.Reading.{IsHeadOf};

pub(crate) const HEAD_BYTES: usize = 10;

pub(crate) const CHECK_BYTES: usize = 2;

/// The major revision that is read.
pub(crate) const MAJOR: u8 = 1;

/// The type of a payload of TAG items.
pub(crate) const TAG_KIND: u8 = b'T';

#[derive(Drop)]
pub(crate) struct AfHead {
    /// The length of the payload in bytes.
    pub len: u32,
    pub seq: u16,
    /// Whether the check value counts.
    pub checked: bool,
    pub major: u8,
    pub minor: u8,
    pub kind: u8,
}

pub(crate) fn head_of(packet: &[u8]) -> AfHead
    requires { 10 ≤ length packet.now }
    ensures { IsHeadOf result packet.now }
{
    let revision = packet[8];
    AfHead {
        len: u32::from_be_bytes([packet[2], packet[3], packet[4], packet[5]]),
        seq: u16::from_be_bytes([packet[6], packet[7]]),
        checked: revision >= 0x80,
        major: revision / 0x10 % 8,
        minor: revision % 0x10,
        kind: packet[9],
    }
}

/// The bytes of the packet that begins with these, by its length field.
/// Example: `described_len(b"AF\0\0\0\x09\x124\x90T")` is 21: a payload of 9 bytes, and 12 around it.
pub fn described_len(head: &[u8]) -> u64
    requires { 10 ≤ length head.now }
    ensures { result ≡ described head.now }
{
    u64::from(head_of(head).len) + (HEAD_BYTES + CHECK_BYTES) as u64
}
