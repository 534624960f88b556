//! Data fields of known bytes. The bytes of the bodies were packed by a program in Python.

use crate::said::{EntityNumbers, bytes_of, numbers_of};
use crate::wrong::has_none;
use drm_bits::NoMemory;
use drm_sdc::{Body, Channel15, Channels, Entities, Entity, Octets, SdcFault, read_entities};
use std::alloc::Global;

const RADIO: [u8; 7] = [0x0a, 0x10, 0x52, 0x61, 0x64, 0x69, 0x6f];

const FAULTS: &[(&[u8], SdcFault)] = &[
    (
        &[0x0a, 0x10, 0x52, 0x61, 0x64, 0x69, 0xff],
        SdcFault::LabelText { at: 0 },
    ),
    (
        &[0x0a, 0x10, 0x52, 0x61, 0x64, 0x69],
        SdcFault::EntityCut { at: 0 },
    ),
    // A type 4 with three bytes behind a raw entity, and a type 5 with none.
    (
        &[0x03, 0x70, 0xaa, 0x06, 0x40, 1, 2, 3],
        SdcFault::BodyLength {
            at: 3,
            kind: 4,
            len: 3,
        },
    ),
    (
        &[0x00, 0x50],
        SdcFault::BodyLength {
            at: 0,
            kind: 5,
            len: 0,
        },
    ),
    // Packet mode wants two bytes.
    (
        &[0x02, 0x50, 0x80],
        SdcFault::BodyLength {
            at: 0,
            kind: 5,
            len: 1,
        },
    ),
    // One byte that may be absent, and half a frequency.
    (
        &[0x04, 0x32, 0x11, 0x22],
        SdcFault::BodyLength {
            at: 0,
            kind: 3,
            len: 2,
        },
    ),
    (
        &[0x1e, 0x00, 0, 0, 0, 0, 0, 0, 0, 0, 0, 0, 0, 0, 0, 0, 0],
        SdcFault::BodyLength {
            at: 0,
            kind: 0,
            len: 15,
        },
    ),
];

fn has_fault(alloc: Global, field: &[u8], fault: SdcFault) -> bool {
    read_entities(alloc, field).err() == Some(fault)
}

// The first field that has another fault.
fn wrong_fault(alloc: Global) -> Option<usize> {
    for (k, row) in FAULTS.iter().enumerate() {
        if !has_fault(alloc, row.0, row.1) {
            return Some(k);
        }
    }
    None
}

#[test]
fn names_the_first_fault(rt: HostRuntime) {
    has_none(&rt, wrong_fault(rt.alloc()));
}

// The field has so many entities and this tail.
pub(crate) fn is_field(alloc: Global, field: &[u8], count: usize, rest: &[u8]) -> bool {
    match read_entities(alloc, field) {
        Ok((entities, tail)) => entities.len() == count && tail.as_slice() == rest,
        Err(_) => false,
    }
}

// A tail begins with two zero bytes, or has fewer than two. One zero byte begins none.
const TAILS: &[(&[u8], usize, &[u8])] = &[
    (&[], 0, &[]),
    (&[0, 0, 5], 0, &[0, 0, 5]),
    (&[7], 0, &[7]),
    (&[0x00, 0x01], 1, &[]),
    (&[0x00, 0x34, 0x00, 0x03, 0x00], 2, &[0x00]),
];

// The first field that isn't so.
fn wrong_tail(alloc: Global) -> Option<usize> {
    for (k, row) in TAILS.iter().enumerate() {
        if !is_field(alloc, row.0, row.1, row.2) {
            return Some(k);
        }
    }
    None
}

#[test]
fn ends_at_the_tail(rt: HostRuntime) {
    has_none(&rt, wrong_tail(rt.alloc()));
}

fn is_said(entity: &Entity, said: Option<&EntityNumbers>) -> bool {
    match said {
        Some((version, numbers, bytes)) => {
            entity.version == *version
                && numbers_of(&entity.body).starts_with(numbers)
                && bytes_of(&entity.body) == *bytes
        }
        None => false,
    }
}

fn are_said(entities: &[Entity], all_said: &[EntityNumbers]) -> bool {
    for (k, entity) in entities.iter().enumerate() {
        if !is_said(entity, all_said.get(k)) {
            return false;
        }
    }
    entities.len() == all_said.len()
}

// The field has these entities and no tail.
fn has(alloc: Global, field: &[u8], all_said: &[EntityNumbers]) -> bool {
    match read_entities(alloc, field) {
        Ok((entities, tail)) => {
            tail.as_slice().is_empty() && are_said(entities.as_slice(), all_said)
        }
        Err(_) => false,
    }
}

const LABEL: &[EntityNumbers] = &[(false, &[1, 0, 0], b"Radio")];

// A schedule, the parameters of the next channel, and a time.
const SEVERAL: [u8; 16] = [
    0x08, 0x49, 0xab, 0x68, 0xeb, 0xcd, 0x05, 0xad, 0x2e, 0xd3, 0x08, 0x87, 0x53, 0x05, 0xfb, 0x81,
];

const SEVERAL_SAID: &[EntityNumbers] = &[
    (false, &[4, 9, 0x55, 0x5a3, 0x2bcd], b""),
    (true, &[10, 1, 2, 9, 0, 3, 1, 6, 0x13], b""),
    (false, &[8, 60000, 23, 59, 0x81], b""),
];

// Two frequencies, an application in packets, and a description of two streams.
const LISTS: [u8; 21] = [
    0x0a, 0x39, 0x5a, 0x92, 0x34, 0x7f, 0xff, 0x09, 0x59, 0xbd, 0x77, 0xab, 0xcd, 0x0d, 0x06, 0x12,
    0x34, 0x56, 0x00, 0x0f, 0xff,
];

const LISTS_SAID: &[EntityNumbers] = &[
    (false, &[3, 1, 0, 256, 0x5a, 0x9234, 0x7fff, 0x10000], b""),
    (true, &[5, 2, 1, 0x0100_0377, 1, 5], b"\xab\xcd"),
    (true, &[0, 1, 2, 2, 0x123, 0x456, 0, 0xfff], b""),
];

// A description of four streams.
const FOUR_STREAMS: [u8; 14] = [
    0x18, 0x09, 0x00, 0x10, 0x02, 0x00, 0x30, 0x04, 0x10, 0x52, 0x06, 0x30, 0x74, 0x08,
];

const FOUR_STREAMS_SAID: &[EntityNumbers] = &[(
    false,
    &[0, 2, 1, 4, 1, 2, 3, 4, 0x105, 0x206, 0x307, 0x408],
    b"",
)];

// An audio service, a language, and an application as a stream.
const SERVICES: [u8; 17] = [
    0x09, 0x9d, 0xad, 0x6b, 0xde, 0xad, 0x0a, 0xc9, 0x12, 0x34, 0x56, 0xbe, 0xef, 0x04, 0x57, 0x5a,
    0x99,
];

const SERVICES_SAID: &[EntityNumbers] = &[
    (true, &[9, 3, 1, 2, 1, 1, 5, 0, 1, 0x15, 1], b"\xde\xad"),
    (false, &[12, 2, 1, 0x123456, 0xbeef], b""),
    (false, &[5, 1, 3, 5, 1, 2], b"\x99"),
];

#[test]
fn reads_a_label(rt: HostRuntime) {
    assert!(rt; has(rt.alloc(), &RADIO, LABEL));
}

#[test]
fn reads_numbers_of_several_bodies(rt: HostRuntime) {
    assert!(rt; has(rt.alloc(), &SEVERAL, SEVERAL_SAID));
}

#[test]
fn reads_lists_and_octets(rt: HostRuntime) {
    assert!(rt; has(rt.alloc(), &LISTS, LISTS_SAID));
}

#[test]
fn reads_a_description_of_four_streams(rt: HostRuntime) {
    assert!(rt; has(rt.alloc(), &FOUR_STREAMS, FOUR_STREAMS_SAID));
}

#[test]
fn reads_services(rt: HostRuntime) {
    assert!(rt; has(rt.alloc(), &SERVICES, SERVICES_SAID));
}

#[test]
fn channels_grow_at_their_end(rt: HostRuntime) -> Result<(), NoMemory> {
    let mut channels = Channels::new(rt.alloc());
    channels.push(Channel15 {
        first: false,
        number: 7,
    })?;
    assert!(rt; channels.len() == 1);
    Ok(())
}

#[test]
fn entities_grow_at_their_end(rt: HostRuntime) -> Result<(), NoMemory> {
    let mut entities = Entities::new(rt.alloc());
    entities.push(Entity {
        version: true,
        body: Body::Raw {
            kind: 7,
            nibble: 3,
            bytes: Octets::from_slice(rt.alloc(), &[9])?,
        },
    })?;
    assert!(rt; entities.len() == 1);
    Ok(())
}
