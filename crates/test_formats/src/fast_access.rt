//! The Fast Access Channel, and the order of the services in it.

use crate::wrong::has_none;
use drm_fac::{
    Channel, Fac, FacFault, Service, Slot, counts, decode, encode, pattern, services_code,
};

// The fields of a channel in their order, and those of a service.
type OfChannel = (bool, u8, u8, bool, u8, bool, u8, u8, u8);

type OfService = (u32, u8, bool, u8, bool, u8, bool, u8);

const NO_CHANNEL: OfChannel = (false, 0, 0, false, 0, false, 0, 0, 0);

const NO_SERVICE: OfService = (0, 0, false, 0, false, 0, false, 0);

// The bytes were packed, and their check values divided out bit by bit, by a program in Python. All fields 0, all
// with each bit set, and three of ordinary values.
const FACS: &[([u8; 9], OfChannel, OfService)] = &[
    (
        [0x00, 0x00, 0x00, 0x00, 0x00, 0x00, 0x00, 0x00, 0xe9],
        NO_CHANNEL,
        NO_SERVICE,
    ),
    (
        [0xff, 0xff, 0xff, 0xff, 0xff, 0xff, 0xff, 0xff, 0xc1],
        (true, 3, 15, true, 3, true, 15, 7, 3),
        (0xffffff, 3, true, 15, true, 31, true, 63),
    ),
    (
        [0x66, 0x08, 0x01, 0x23, 0x45, 0x60, 0xa1, 0x80, 0x6d],
        (false, 3, 3, false, 0, false, 4, 0, 0),
        (0x123456, 0, false, 5, false, 3, false, 0),
    ),
    (
        [0xb5, 0xb7, 0x6a, 0xbc, 0xde, 0xfb, 0x3a, 0xea, 0x0e],
        (true, 1, 10, true, 2, true, 11, 5, 2),
        (0xabcdef, 2, true, 9, true, 21, true, 42),
    ),
    (
        [0x4b, 0xdc, 0x98, 0x00, 0x00, 0x14, 0xc5, 0x15, 0xaf],
        (false, 2, 5, true, 3, false, 14, 2, 1),
        (0x800001, 1, false, 6, false, 10, false, 21),
    ),
];

fn is_read_and_written(bytes: &[u8; 9], fac: &Fac) -> bool {
    decode(bytes) == Ok(*fac) && fac.fits() && encode(fac) == *bytes
}

// The first FAC that isn't read and written so.
fn wrong_fac() -> Option<usize> {
    for (k, row) in FACS.iter().enumerate() {
        if !is_read_and_written(&row.0, &fac(row.1, row.2)) {
            return Some(k);
        }
    }
    None
}

#[test]
fn reads_and_writes_each_field(rt: HostRuntime) {
    has_none(&rt, wrong_fac());
}

fn is_refused(stands: u8) -> bool {
    let bytes = [0x66, 0x08, 0x01, 0x23, 0x45, 0x60, 0xa1, 0x80, stands];
    let computed = 0x6d;
    decode(&bytes) == Err(FacFault::Crc { stands, computed })
}

#[test]
fn names_a_wrong_check_value(rt: HostRuntime) {
    assert!(rt; is_refused(0x6c) && is_refused(0x00) && is_refused(0xff) && is_refused(0x92));
}

// The first number that is too great for each field that isn't one bit.
const TOO_GREAT_CHANNELS: &[OfChannel] = &[
    (false, 4, 0, false, 0, false, 0, 0, 0),
    (false, 0, 16, false, 0, false, 0, 0, 0),
    (false, 0, 0, false, 4, false, 0, 0, 0),
    (false, 0, 0, false, 0, false, 16, 0, 0),
    (false, 0, 0, false, 0, false, 0, 8, 0),
    (false, 0, 0, false, 0, false, 0, 0, 4),
];

const TOO_GREAT_SERVICES: &[OfService] = &[
    (0x100_0000, 0, false, 0, false, 0, false, 0),
    (0, 4, false, 0, false, 0, false, 0),
    (0, 0, false, 16, false, 0, false, 0),
    (0, 0, false, 0, false, 32, false, 0),
    (0, 0, false, 0, false, 0, false, 64),
];

// The first channel that fits.
fn wrong_channel() -> Option<usize> {
    for (k, channel) in TOO_GREAT_CHANNELS.iter().enumerate() {
        if fac(*channel, NO_SERVICE).fits() {
            return Some(k);
        }
    }
    None
}

// The first service that fits.
fn wrong_service() -> Option<usize> {
    for (k, service) in TOO_GREAT_SERVICES.iter().enumerate() {
        if fac(NO_CHANNEL, *service).fits() {
            return Some(k);
        }
    }
    None
}

#[test]
fn fits_up_to_each_width(rt: HostRuntime) {
    has_none(&rt, wrong_channel());
    has_none(&rt, wrong_service());
}

fn fac(channel: OfChannel, service: OfService) -> Fac {
    let (enhancement, identity, occupancy, short_depth, msc, qam4, services, index, last) = channel;
    let channel = Channel {
        enhancement,
        identity,
        occupancy,
        short_depth,
        msc,
        qam4,
        services,
        index,
        last,
    };
    let (id, short, ca, language, is_data, descriptor, data_ca, last) = service;
    let service = Service {
        id,
        short,
        ca,
        language,
        is_data,
        descriptor,
        data_ca,
        last,
    };
    Fac { channel, service }
}

// Read off the two bits of each count by hand.
const COUNTS: &[Option<(u8, u8)>] = &[
    Some((4, 0)),
    Some((0, 1)),
    Some((0, 2)),
    Some((0, 3)),
    Some((1, 0)),
    Some((1, 1)),
    Some((1, 2)),
    Some((1, 3)),
    Some((2, 0)),
    Some((2, 1)),
    Some((2, 2)),
    None,
    Some((3, 0)),
    Some((3, 1)),
    None,
    Some((0, 4)),
];

// The first code whose counts are others.
fn wrong_count() -> Option<usize> {
    for (code, expected) in COUNTS.iter().enumerate() {
        if code >= 16 || counts(code as u8) != *expected {
            return Some(code);
        }
    }
    None
}

#[test]
fn counts_services(rt: HostRuntime) {
    has_none(&rt, wrong_count());
}

// How many audio and data services, and their code.
const CODES: &[((u8, u8), Option<u8>)] = &[
    ((4, 0), Some(0)),
    ((0, 4), Some(15)),
    ((2, 1), Some(9)),
    ((1, 3), Some(7)),
    ((3, 1), Some(13)),
    ((0, 0), None),
    ((0, 5), None),
    ((2, 3), None),
    ((4, 1), None),
    ((255, 255), None),
];

// The first counts that have another code.
fn wrong_code() -> Option<usize> {
    for (k, row) in CODES.iter().enumerate() {
        if services_code(row.0.0, row.0.1) != row.1 {
            return Some(k);
        }
    }
    None
}

#[test]
fn codes_services(rt: HostRuntime) {
    has_none(&rt, wrong_code());
}

const A: Slot = Slot::Audio(0);

const B: Slot = Slot::Audio(1);

const C: Slot = Slot::Audio(2);

const D: Slot = Slot::Data(0);

const E: Slot = Slot::Data(1);

// Each order written out by hand, and what comes after it.
const ORDERS: &[(u8, u8, &[Slot])] = &[
    (1, 0, &[A, A]),
    (3, 0, &[A, B, C, A, B]),
    (0, 2, &[D, E, D]),
    (1, 1, &[A, A, A, A, D, A]),
    (1, 2, &[A, A, A, A, D, A, A, A, A, E, A]),
    (2, 1, &[A, B, A, B, D, A, B]),
    (2, 2, &[A, B, A, B, D, A, B, A, B, E, A, B]),
    (3, 1, &[A, B, C, A, B, C, D, A]),
];

fn take_turns(audio: u8, data_count: u8, order: &[Slot]) -> bool {
    if services_code(audio, data_count).is_none() {
        return false;
    }
    for (phase, slot) in order.iter().enumerate() {
        if pattern(audio, data_count, phase as u64) != *slot {
            return false;
        }
    }
    true
}

// The first services that take other turns.
fn wrong_order() -> Option<usize> {
    for (k, row) in ORDERS.iter().enumerate() {
        if !take_turns(row.0, row.1, row.2) {
            return Some(k);
        }
    }
    None
}

#[test]
fn services_take_turns(rt: HostRuntime) {
    has_none(&rt, wrong_order());
}
