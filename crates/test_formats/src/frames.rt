//! Payloads that were packed by a program in Python after TS 102 820.

ghost use Rattle.std.specs.Prelude.{◌≡◌, ◌<◌};
ghost use Rattle.drm_bits.specs.Description.{IsDescription, FitsWidths};
ghost use Rattle.drm_fac.specs.Fac.{FacFits};

use crate::wrong::has_none;
use dcp_tag::ValueCut;
use drm_fac::{Channel, Fac, FacFault, Mode, Service};
use drm_mux::{MuxDesc, MuxFault, Part, Spans};
use drm_sdc::{BlockInfo, SdcFault};
use mdi_items::{MdiFault, MdiView, MdiWriter, SdcSpan, read_mdi};

// The second frame of a super frame: *ptr, dlfc, fac_, sdci, robm and str0.
const FRAME: [u8; 78] = [
    0x2a, 0x70, 0x74, 0x72, 0, 0, 0, 0x40, 0x44, 0x4d, 0x44, 0x49, 0, 0, 0, 0, 0x64, 0x6c, 0x66,
    0x63, 0, 0, 0, 0x20, 0, 0, 0, 1, 0x66, 0x61, 0x63, 0x5f, 0, 0, 0, 0x48, 0x26, 0x08, 0x01, 0x23,
    0x45, 0x60, 0xa1, 0x80, 0x33, 0x73, 0x64, 0x63, 0x69, 0, 0, 0, 0x20, 1, 0, 0, 4, 0x72, 0x6f,
    0x62, 0x6d, 0, 0, 0, 8, 1, 0x73, 0x74, 0x72, 0x30, 0, 0, 0, 0x20, 0x55, 0x55, 0x55, 0x55,
];

// The first frame, with sdc_ before str0.
const FIRST: [u8; 98] = [
    0x2a, 0x70, 0x74, 0x72, 0, 0, 0, 0x40, 0x44, 0x4d, 0x44, 0x49, 0, 0, 0, 0, 0x64, 0x6c, 0x66,
    0x63, 0, 0, 0, 0x20, 0, 0, 0, 0, 0x66, 0x61, 0x63, 0x5f, 0, 0, 0, 0x48, 0x66, 0x08, 0x01, 0x23,
    0x45, 0x60, 0xa1, 0x80, 0x6d, 0x73, 0x64, 0x63, 0x69, 0, 0, 0, 0x20, 1, 0, 0, 4, 0x72, 0x6f,
    0x62, 0x6d, 0, 0, 0, 8, 1, 0x73, 0x64, 0x63, 0x5f, 0, 0, 0, 0x5c, 0, 0x60, 0x10, 0, 0, 0x40,
    0x49, 0x02, 0x30, 0x06, 0xbe, 0x60, 0x73, 0x74, 0x72, 0x30, 0, 0, 0, 0x20, 0x55, 0x55, 0x55,
    0x55,
];

// The first frame as another tool writes it: in another order, with the long form of the block, items that aren't
// known, streams of no bits, and padding at the end.
const ANOTHER: [u8; 164] = [
    0x73, 0x74, 0x72, 0x30, 0, 0, 0, 0x20, 0x55, 0x55, 0x55, 0x55, 0x73, 0x64, 0x63, 0x5f, 0, 0, 0,
    0x60, 0x00, 0x06, 0x01, 0, 0, 0x04, 0x04, 0x90, 0x23, 0x00, 0x6b, 0xe6, 0x69, 0x6e, 0x66, 0x6f,
    0, 0, 0, 0x18, 0x61, 0x62, 0x63, 0x72, 0x6f, 0x62, 0x6d, 0, 0, 0, 8, 1, 0x41, 0x62, 0x63, 0x64,
    0, 0, 0, 0x0c, 0xff, 0xff, 0x73, 0x64, 0x63, 0x69, 0, 0, 0, 0x20, 1, 0, 0, 4, 0x74, 0x69, 0x73,
    0x74, 0, 0, 0, 0x40, 0, 1, 2, 3, 4, 5, 6, 7, 0x66, 0x61, 0x63, 0x5f, 0, 0, 0, 0x48, 0x66, 0x08,
    0x01, 0x23, 0x45, 0x60, 0xa1, 0x80, 0x6d, 0x73, 0x74, 0x72, 0x33, 0, 0, 0, 0, 0x73, 0x74, 0x72,
    0x32, 0, 0, 0, 0, 0x73, 0x74, 0x72, 0x31, 0, 0, 0, 0, 0x64, 0x6c, 0x66, 0x63, 0, 0, 0, 0x20, 0,
    0, 0, 0, 0x2a, 0x70, 0x74, 0x72, 0, 0, 0, 0x40, 0x44, 0x4d, 0x44, 0x49, 0, 1, 0, 2, 1, 2, 3, 4,
    5,
];

fn fac(identity: u8) -> Fac
    requires { identity < 4 }
    ensures { FacFits result }
{
    Fac {
        channel: Channel {
            enhancement: false,
            identity,
            occupancy: 3,
            short_depth: false,
            msc: 0,
            qam4: false,
            services: 4,
            index: 0,
            last: 0,
        },
        service: Service {
            id: 0x123456,
            short: 0,
            ca: false,
            language: 5,
            is_data: false,
            descriptor: 3,
            data_ca: false,
            last: 0,
        },
    }
}

fn mux() -> MuxDesc
    ensures description { IsDescription result }
    ensures widths { FitsWidths result }
    ensures count { result.count ≡ 1 }
{
    let mut parts = [Part { a: 0, b: 0 }; 4];
    parts[0].b = 4;
    MuxDesc {
        prot_a: 0,
        prot_b: 1,
        count: 1,
        parts,
    }
}

fn second_frame(payload: &[u8], mode: Mode) -> MdiView<'_> {
    MdiView {
        major: 0,
        minor: 0,
        dlfc: 1,
        fac_bytes: [0x26, 0x08, 0x01, 0x23, 0x45, 0x60, 0xa1, 0x80, 0x33],
        fac: fac(1),
        mux: mux(),
        mode,
        sdc: None,
        streams: Spans {
            at: [74, 0, 0, 0],
            len: [4, 0, 0, 0],
        },
        payload,
    }
}

fn is_read_as(payload: &[u8], view: MdiView<'_>) -> bool {
    read_mdi(payload) == Ok(view)
}

fn has_fault(payload: &[u8], fault: MdiFault) -> bool {
    read_mdi(payload).err() == Some(fault)
}

#[test]
fn reads_a_frame(rt: HostRuntime) {
    let mut frame = FRAME;
    assert!(rt; is_read_as(&frame, second_frame(&frame, Mode::B)));
    frame[65] = 2;
    assert!(rt; is_read_as(&frame, second_frame(&frame, Mode::C)));
}

#[test]
fn reads_any_order(rt: HostRuntime) {
    let expected = MdiView {
        major: 1,
        minor: 2,
        dlfc: 0,
        fac_bytes: [0x66, 0x08, 0x01, 0x23, 0x45, 0x60, 0xa1, 0x80, 0x6d],
        fac: fac(3),
        mux: mux(),
        mode: Mode::B,
        sdc: Some(SdcSpan {
            at: 20,
            bits: 96,
            info: BlockInfo { afs: 0, room: 9 },
        }),
        streams: Spans {
            at: [8, 131, 123, 115],
            len: [4, 0, 0, 0],
        },
        payload: &ANOTHER,
    };
    assert!(rt; is_read_as(&ANOTHER, expected));
}

fn put(frame: &mut [u8], at: usize, byte: u8) {
    if at < frame.len() {
        frame[at] = byte;
    }
}

// A byte of the frame, what it becomes, and the fault that it has then.
type FrameEdit = (usize, u8, MdiFault);

fn comes_to(frame: &mut [u8], edit: &FrameEdit) -> bool {
    put(frame, edit.0, edit.1);
    has_fault(frame, edit.2)
}

const WRONG_CRC: FacFault = FacFault::Crc {
    stands: 0x32,
    computed: 0x33,
};

const WRONG_ITEMS: &[FrameEdit] = &[
    (0, b'+', MdiFault::Absent { name: *b"*ptr" }),
    (
        7,
        0x3f,
        MdiFault::ItemLength {
            name: *b"*ptr",
            bits: 63,
        },
    ),
    (8, b'd', MdiFault::Protocol),
    (16, b'D', MdiFault::Absent { name: *b"dlfc" }),
    (
        23,
        0x1f,
        MdiFault::ItemLength {
            name: *b"dlfc",
            bits: 31,
        },
    ),
    (28, b'F', MdiFault::Absent { name: *b"fac_" }),
    (
        35,
        0x47,
        MdiFault::ItemLength {
            name: *b"fac_",
            bits: 71,
        },
    ),
    (44, 0x32, MdiFault::Fac(WRONG_CRC)),
    (45, b'S', MdiFault::Absent { name: *b"sdci" }),
    (52, 0x1f, MdiFault::Mux(MuxFault::SdciLength { bits: 31 })),
    (53, 0x11, MdiFault::Mux(MuxFault::SdciFront)),
    (57, b'R', MdiFault::Absent { name: *b"robm" }),
    (
        64,
        7,
        MdiFault::ItemLength {
            name: *b"robm",
            bits: 7,
        },
    ),
    (65, 4, MdiFault::Mode { value: 4 }),
];

const LONGER: MuxFault = MuxFault::StreamLength {
    stream: 0,
    stands: 4,
    described: 5,
};

const WRONG_STREAMS: &[FrameEdit] = &[
    (66, b'S', MdiFault::Absent { name: *b"str0" }),
    (
        73,
        0x1f,
        MdiFault::ItemLength {
            name: *b"str0",
            bits: 31,
        },
    ),
    (56, 5, MdiFault::Mux(LONGER)),
];

// The first edit that comes to something else.
fn wrong_edit(edits: &[FrameEdit]) -> Option<usize> {
    for (k, edit) in edits.iter().enumerate() {
        let mut frame = FRAME;
        if !comes_to(&mut frame, edit) {
            return Some(k);
        }
    }
    None
}

#[test]
fn names_what_is_wrong_with_an_item(rt: HostRuntime) {
    has_none(&rt, wrong_edit(WRONG_ITEMS));
}

#[test]
fn names_what_is_wrong_with_a_stream(rt: HostRuntime) {
    has_none(&rt, wrong_edit(WRONG_STREAMS));
}

// No bits of a block are as good as none.
#[test]
fn reads_a_block_of_no_bits(rt: HostRuntime) {
    let mut more = [0; 86];
    more[..78].copy_from_slice(&FRAME);
    more[78..].copy_from_slice(b"sdc_\0\0\0\0");
    assert!(rt; is_read_as(&more, second_frame(&more, Mode::B)));
    more[36] = 0x66;
    more[44] = 0x6d;
    assert!(rt; has_fault(&more, MdiFault::Absent { name: *b"sdc_" }));
}

// A stream that isn't described must have no bits.
#[test]
fn reads_no_stream_beside_the_description(rt: HostRuntime) {
    let mut more = [0; 87];
    more[..78].copy_from_slice(&FRAME);
    more[78..].copy_from_slice(b"str1\0\0\0\x08\x55");
    assert!(rt;
        has_fault(
            &more,
            MdiFault::ItemLength {
                name: *b"str1",
                bits: 8
            }
        )
    );
}

// A stream that is described with no bytes may be absent.
#[test]
fn reads_streams_by_the_description(rt: HostRuntime) {
    let mut two = [0; 81];
    two[..49].copy_from_slice(&FRAME[..49]);
    two[49..60].copy_from_slice(&[0, 0, 0, 0x38, 1, 0, 0, 4, 0, 0, 0]);
    two[60..].copy_from_slice(&FRAME[57..]);
    let mut expected = second_frame(&two, Mode::B);
    expected.mux.count = 2;
    expected.streams.at[0] = 77;
    assert!(rt; is_read_as(&two, expected));
}

#[test]
fn names_hierarchical_modulation(rt: HostRuntime) {
    let mut frame = FRAME;
    frame[37] = 0x48;
    assert!(rt; comes_to(&mut frame, &(44, 0xed, MdiFault::Hierarchical { msc: 1 })));
    frame[37] = 0x88;
    assert!(rt; comes_to(&mut frame, &(44, 0x92, MdiFault::Hierarchical { msc: 2 })));
}

const WRONG_BLOCK_CRC: SdcFault = SdcFault::Crc {
    stands: 0x6bf6,
    computed: 0x6be6,
};

const WRONG_BLOCKS: &[FrameEdit] = &[
    (66, b'S', MdiFault::Absent { name: *b"sdc_" }),
    (73, 0x5b, MdiFault::Sdc(SdcFault::BlockLength { bits: 91 })),
    (84, 0xbf, MdiFault::Sdc(WRONG_BLOCK_CRC)),
];

const BLOCK_OUT_OF_PLACE: MdiFault = MdiFault::ItemLength {
    name: *b"sdc_",
    bits: 92,
};

// The first edit of a block that comes to something else.
fn wrong_block_edit() -> Option<usize> {
    for (k, edit) in WRONG_BLOCKS.iter().enumerate() {
        let mut frame = FIRST;
        if !comes_to(&mut frame, edit) {
            return Some(k);
        }
    }
    None
}

#[test]
fn names_what_is_wrong_with_a_block(rt: HostRuntime) {
    has_none(&rt, wrong_block_edit());
    let mut frame = FIRST;
    frame[36] = 0x26;
    assert!(rt; comes_to(&mut frame, &(44, 0x33, BLOCK_OUT_OF_PLACE)));
}

// A cut item and a second one are found where they stand.
#[test]
fn names_what_stands_first(rt: HostRuntime) {
    let mut twice = [0; 156];
    twice[..78].copy_from_slice(&FRAME);
    twice.copy_within(..78, 78);
    let second = MdiFault::Twice { name: *b"*ptr" };
    assert!(rt;
        has_fault(&twice[..77], MdiFault::Tag(ValueCut { at: 66 }))
            && has_fault(&twice, second)
            && has_fault(&twice[..155], second)
    );
}

#[test]
fn writes_the_first_frame(rt: HostRuntime) {
    let mut into = [0xee; 98];
    let mut writer = MdiWriter::new(&mut into);
    writer.head(0, &fac(3), &mux(), Mode::B);
    writer.block(&FIRST[74..86], 92);
    let room = writer.room();
    writer.stream(0, b"UUUU");
    assert!(rt; room == 12 && writer.end() == 98 && into == FIRST);
}

#[test]
fn writes_the_second_frame(rt: HostRuntime) {
    let mut into = [0xee; 78];
    let mut writer = MdiWriter::new(&mut into);
    writer.head(1, &fac(1), &mux(), Mode::B);
    writer.stream(0, b"UUUU");
    assert!(rt; writer.end() == 78 && into == FRAME);
}
