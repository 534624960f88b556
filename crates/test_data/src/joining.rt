//! Packets joined to units, call by call. The check values are from Python.

ghost use Rattle.std.specs.Prelude.{◌≡◌, ◌≤◌, length};

use crate::packets::{FIVE, HI, ONE_TO_FOUR};
use crate::wrong::has_none;
use drm_bits::{NoMemory, zeros};
use drm_data::{DataFault, Joined, Joiner, Packer};
use std::alloc::Global;

/// A call of a joiner, and what it answers.
#[derive(Clone, Copy)]
enum JoinerCall<'a> {
    Packet(&'a [u8], Joined<'a>),
    Gap(bool),
    End(bool),
}

const UNIT: &[u8] = b"\x01\x02\x03\x04\x05";

// Others than the packets of the two units: `Hi` as packet 2, and under packet id 1; the last byte of the second unit as packet 3,
// behind a packet without useful bytes; a unit of no bytes; and one with a wrong check value.
const HI_AGAIN: &[u8] = b"\xea\x02Hi\0{\x87";

const OTHER: &[u8] = b"\xd8\x02Hi\03\xea";

const FILLER: &[u8] = b"*\0wwwb\xcf";

const FIVE_BEHIND: &[u8] = b"k\x01\x05\0\0\x86\x94";

const EMPTY: &[u8] = b"\xe8\0\0\0\0\xd7\xd2";

const WRONG: &[u8] = b"\xe8\x02Hi\0?\x05";

const WRONG_IS: DataFault = DataFault::Crc {
    stands: 0x3f05,
    computed: 0x3f04,
};

const WHOLE: &[JoinerCall<'static>] = &[
    JoinerCall::Packet(HI, Joined::Unit(b"Hi")),
    JoinerCall::Packet(ONE_TO_FOUR, Joined::Nothing),
    JoinerCall::Packet(FIVE, Joined::Unit(UNIT)),
    JoinerCall::Packet(EMPTY, Joined::Unit(b"")),
    JoinerCall::End(false),
];

const WITHOUT_THE_SECOND: &[JoinerCall<'static>] = &[
    JoinerCall::Packet(HI, Joined::Unit(b"Hi")),
    JoinerCall::Gap(false),
    JoinerCall::Packet(FIVE, Joined::Nothing),
];

const ENDED: &[JoinerCall<'static>] = &[
    JoinerCall::Packet(HI, Joined::Unit(b"Hi")),
    JoinerCall::Packet(ONE_TO_FOUR, Joined::Nothing),
    JoinerCall::End(true),
    JoinerCall::End(false),
];

const CUT: &[JoinerCall<'static>] = &[
    JoinerCall::Packet(ONE_TO_FOUR, Joined::Nothing),
    JoinerCall::Gap(true),
    JoinerCall::Packet(FIVE, Joined::Nothing),
    JoinerCall::Packet(ONE_TO_FOUR, Joined::Nothing),
    JoinerCall::Packet(ONE_TO_FOUR, Joined::Cut),
    JoinerCall::Packet(HI_AGAIN, Joined::CutUnit(b"Hi")),
    JoinerCall::Packet(ONE_TO_FOUR, Joined::Nothing),
    JoinerCall::Packet(FIVE_BEHIND, Joined::Cut),
    JoinerCall::Packet(ONE_TO_FOUR, Joined::Nothing),
    JoinerCall::Packet(
        WRONG,
        Joined::Refused {
            fault: WRONG_IS,
            cut: true,
        },
    ),
    JoinerCall::Packet(
        WRONG,
        Joined::Refused {
            fault: WRONG_IS,
            cut: false,
        },
    ),
    JoinerCall::Gap(false),
];

const PASSED_OVER: &[JoinerCall<'static>] = &[
    JoinerCall::Packet(ONE_TO_FOUR, Joined::Nothing),
    JoinerCall::Packet(OTHER, Joined::Nothing),
    JoinerCall::Packet(FILLER, Joined::Nothing),
    JoinerCall::Packet(OTHER, Joined::Nothing),
    JoinerCall::Packet(FIVE_BEHIND, Joined::Unit(UNIT)),
    JoinerCall::End(false),
];

// Whether the call answers so.
fn answers(joiner: &mut Joiner, step: &JoinerCall<'_>) -> bool {
    match step {
        JoinerCall::Packet(bytes, said) => joiner.packet(bytes) == *said,
        JoinerCall::Gap(cut) => joiner.gap() == *cut,
        JoinerCall::End(cut) => joiner.end() == *cut,
    }
}

// The first call that answers otherwise, if one does.
fn wrong_step(alloc: Global, steps: &[JoinerCall<'_>]) -> Option<usize> {
    let Ok(mut joiner) = Joiner::make(alloc, 2, 4) else {
        return Some(0);
    };
    for (k, step) in steps.iter().enumerate() {
        if !answers(&mut joiner, step) {
            return Some(k);
        }
    }
    None
}

#[test]
fn joins_packets(rt: HostRuntime) {
    has_none(&rt, wrong_step(rt.alloc(), WHOLE));
    has_none(&rt, wrong_step(rt.alloc(), PASSED_OVER));
}

#[test]
fn tells_cuts(rt: HostRuntime) {
    has_none(&rt, wrong_step(rt.alloc(), WITHOUT_THE_SECOND));
    has_none(&rt, wrong_step(rt.alloc(), ENDED));
    has_none(&rt, wrong_step(rt.alloc(), CUT));
}

// Whether the longest unit comes back of its packets, the last of which alone ends it.
fn is_joined(alloc: Global, unit: &[u8]) -> Result<bool, NoMemory>
    requires { length unit.now ≡ 65535 }
{
    let mut packer = Packer::new(3, 255);
    let mut joiner = Joiner::make(alloc, 3, 255)?;
    let mut into = [0; 258];
    let mut joined = true;
    for k in 0..257 {
        let len = packer.unit_packet(unit, k, &mut into);
        let said = if k < 256 {
            Joined::Nothing
        } else {
            Joined::Unit(unit)
        };
        joined = joined && joiner.packet(&into[..len]) == said;
    }
    Ok(joined)
}

// Fills these with bytes that count up, and begin again at a number that is no length of a packet.
fn count_up(bytes: &mut [u8]) {
    for (i, byte) in bytes.iter_mut().enumerate() {
        *byte = (i % 251) as u8;
    }
}

#[test]
fn joins_the_longest_unit(rt: HostRuntime) -> Result<(), NoMemory> {
    let mut unit = zeros(rt.alloc(), 65_535)?;
    count_up(&mut unit);
    assert!(rt; is_joined(rt.alloc(), &unit)?);
    Ok(())
}
