//! The header of a fragment, and where each field of it stands.

ghost use Rattle.std.specs.Prelude.{◌≡◌, ◌+◌, ◌≤◌, length};
ghost use Rattle.dcp_pft.specs.Faults.{marks, described, has_code, has_addresses, head_size, code, addresses_place, addresses_at, addresses};
ghost use Rattle.dcp_pft.specs.Reading.{IsHeadOf};

use crate::{Addr, Rs};

/// The bytes of a header with neither code nor addresses.
pub(crate) const LEAST_HEAD: usize = 14;

pub(crate) const CHECK_BYTES: usize = 2;

const ADDRESS_BYTES: usize = 4;

const CODE_PLACE: usize = 12;

#[derive(Drop)]
pub(crate) struct PftHead {
    pub seq: u16,
    pub index: u32,
    pub count: u32,
    /// The length of the payload.
    pub len: u16,
    pub rs: Option<Rs>,
    pub addr: Option<Addr>,
}

// The length of the payload, and above it whether there are a code and addresses.
fn marks_of(datagram: &[u8]) -> u16
    requires { 14 ≤ length datagram.now }
    ensures { result ≡ marks datagram.now }
{
    u16::from_be_bytes([datagram[10], datagram[11]])
}

// The length of the payload.
pub(crate) fn payload_size(datagram: &[u8]) -> u16
    requires { 14 ≤ length datagram.now }
    ensures { result ≡ described datagram.now }
{
    marks_of(datagram) % 0x4000
}

fn is_coded(datagram: &[u8]) -> bool
    requires { 14 ≤ length datagram.now }
    ensures { result ≡ has_code (marks datagram.now) }
{
    marks_of(datagram) >= 0x8000
}

fn is_addressed(datagram: &[u8]) -> bool
    requires { 14 ≤ length datagram.now }
    ensures { result ≡ has_addresses (marks datagram.now) }
{
    marks_of(datagram) % 0x8000 >= 0x4000
}

fn place_of_addresses(datagram: &[u8]) -> usize
    requires { 14 ≤ length datagram.now }
    ensures { result ≡ addresses_place datagram.now }
{
    if is_coded(datagram) {
        CODE_PLACE + 2
    } else {
        CODE_PLACE
    }
}

/// The bytes of the whole header.
pub(crate) fn size_of_head(datagram: &[u8]) -> usize
    requires { 14 ≤ length datagram.now }
    ensures { result ≡ head_size datagram.now }
{
    let place = place_of_addresses(datagram);
    if is_addressed(datagram) {
        place + ADDRESS_BYTES + CHECK_BYTES
    } else {
        place + CHECK_BYTES
    }
}

fn code_of(datagram: &[u8]) -> Option<Rs>
    requires { 14 ≤ length datagram.now }
    ensures { result ≡ code datagram.now }
{
    if is_coded(datagram) {
        Some(Rs {
            k: datagram[CODE_PLACE],
            z: datagram[CODE_PLACE + 1],
        })
    } else {
        None
    }
}

fn addresses_in(datagram: &[u8], place: usize) -> Addr
    requires { place + 4 ≤ length datagram.now }
    ensures { result ≡ addresses_at datagram.now place }
{
    Addr {
        source: u16::from_be_bytes([datagram[place], datagram[place + 1]]),
        dest: u16::from_be_bytes([datagram[place + 2], datagram[place + 3]]),
    }
}

fn addresses_of(datagram: &[u8]) -> Option<Addr>
    requires least { 14 ≤ length datagram.now }
    requires whole { head_size datagram.now ≤ length datagram.now }
    ensures { result ≡ addresses datagram.now }
{
    if is_addressed(datagram) {
        Some(addresses_in(datagram, place_of_addresses(datagram)))
    } else {
        None
    }
}

pub(crate) fn head_of(datagram: &[u8]) -> PftHead
    requires least { 14 ≤ length datagram.now }
    requires whole { head_size datagram.now ≤ length datagram.now }
    ensures { IsHeadOf result datagram.now }
{
    PftHead {
        seq: u16::from_be_bytes([datagram[2], datagram[3]]),
        index: u32::from_be_bytes([0, datagram[4], datagram[5], datagram[6]]),
        count: u32::from_be_bytes([0, datagram[7], datagram[8], datagram[9]]),
        len: payload_size(datagram),
        rs: code_of(datagram),
        addr: addresses_of(datagram),
    }
}
