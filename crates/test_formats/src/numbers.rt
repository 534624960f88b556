//! Numbers of up to 64 bits, taken from bytes and put into them.

ghost use Rattle.std.specs.Prelude.{◌≡◌};
ghost use Rattle.drm_bits.specs.Sink.{lender};

use crate::wrong::has_none;
use drm_bits::{BitSink, Bits, Short};

// How many bits, their number, and how many are left.
type TakenBits = (u32, u64, usize);

// The bits of a5 3c ff are 1 010 01010011 110011111111, cut here by hand.
const CUT: &[TakenBits] = &[
    (1, 1, 23),
    (3, 2, 20),
    (8, 0x53, 12),
    (0, 0, 12),
    (12, 0xcff, 0),
];

// The next bits are so.
fn takes(bits: &mut Bits<'_>, taken: &TakenBits) -> bool {
    taken.0 <= 64 && bits.take(taken.0) == Ok(taken.1) && bits.left() == taken.2
}

// So many bits aren't there.
fn takes_no(bits: &mut Bits<'_>, n: u32, left: usize) -> bool {
    n <= 64 && bits.take(n) == Err(Short { left })
}

// The first bits that aren't so.
fn wrong_bits(bits: &mut Bits<'_>) -> Option<usize> {
    for (k, taken) in CUT.iter().enumerate() {
        if !takes(bits, taken) {
            return Some(k);
        }
    }
    None
}

#[test]
fn takes_from_the_front(rt: HostRuntime) {
    let mut bits = Bits::new(&[0xa5, 0x3c, 0xff], 24);
    has_none(&rt, wrong_bits(&mut bits));
    assert!(rt; takes_no(&mut bits, 1, 0) && takes(&mut bits, &(0, 0, 0)));
}

const WORDS: [u8; 9] = [0x01, 0x23, 0x45, 0x67, 0x89, 0xab, 0xcd, 0xef, 0x80];

#[test]
fn takes_whole_words(rt: HostRuntime) {
    let mut bits = Bits::new(&WORDS, 65);
    assert!(rt;
        takes(&mut bits, &(64, 0x0123_4567_89ab_cdef, 1))
            && takes_no(&mut bits, 2, 1)
            && takes(&mut bits, &(1, 1, 0))
    );
}

#[test]
fn ends_inside_a_byte(rt: HostRuntime) {
    let mut bits = Bits::new(&[0xff, 0xff], 11);
    assert!(rt; takes_no(&mut bits, 12, 11) && takes(&mut bits, &(11, 0x7ff, 0)));
}

// How many bits, their number, and how many are written behind it.
type Put = (u32, u64, usize);

// The number is written so.
fn puts(sink: &mut BitSink<'_>, put: &Put) -> bool
    ensures { lender sink.new ≡ lender sink.old }
{
    let (n, number, len) = *put;
    if n >= 64 || number >= 1 << n {
        return false;
    }
    sink.put(number, n) == Ok(()) && sink.len() == len
}

// Behind all of these there is no room.
fn puts_all(bytes: &mut [u8; 3]) -> bool {
    let mut sink = BitSink::new(bytes);
    puts(&mut sink, &(1, 1, 1))
        && puts(&mut sink, &(3, 2, 4))
        && puts(&mut sink, &(8, 0x53, 12))
        && puts(&mut sink, &(0, 0, 12))
        && puts(&mut sink, &(12, 0xcff, 24))
        && sink.put(0, 1) == Err(Short { left: 0 })
}

// The digits 1 010 01010011 110011111111 are a5 3c ff, cut here by hand.
#[test]
fn writes_from_the_front(rt: HostRuntime) {
    let mut bytes = [0; 3];
    assert!(rt; puts_all(&mut bytes) && bytes == [0xa5, 0x3c, 0xff]);
}

fn puts_one_of_two(bytes: &mut [u8; 2]) -> bool {
    let mut sink = BitSink::new(bytes);
    sink.put(5, 3) == Ok(()) && sink.put(0, 14) == Err(Short { left: 13 }) && sink.len() == 3
}

// 101 over the three upper bits of 0f gives af, and a refused number changes nothing.
#[test]
fn keeps_the_bits_behind(rt: HostRuntime) {
    let mut bytes = [0x0f, 0x5a];
    assert!(rt; puts_one_of_two(&mut bytes) && bytes == [0xaf, 0x5a]);
}

fn puts_two(bytes: &mut [u8; 9]) -> bool {
    let mut sink = BitSink::new(bytes);
    sink.put(0, 5) == Ok(()) && sink.put(0x0123_4567_89ab_cdef, 64) == Ok(())
}

fn takes_three(bits: &mut Bits<'_>) -> bool {
    takes(bits, &(5, 0, 67))
        && takes(bits, &(64, 0x0123_4567_89ab_cdef, 3))
        && takes(bits, &(3, 7, 0))
}

#[test]
fn writes_what_is_taken(rt: HostRuntime) {
    let mut bytes = [0xff; 9];
    assert!(rt; puts_two(&mut bytes) && takes_three(&mut Bits::new(&bytes, 72)));
}
