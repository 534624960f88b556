//! Words and their parity from another program, and erased places of them.

use crate::places::are_places;
use crate::wrong::has_none;
use rs_erase::{SolveFault, encode, solve, syndromes};

/// A chunk, whose bytes begin with `first` and grow by `step` modulo 256, and its parity.
#[derive(Clone, Copy)]
struct Coded {
    first: u8,
    step: u8,
    length: usize,
    parity: [u8; 48],
}

/// The parity is that of `encode_rs_char` of libfec 1.0-26 (Debian's libfec-dev), made by
/// `init_rs_char(8, 0x11d, 1, 1, 48, 0)` (first root 2 to the 1, 48 roots), with the zeros behind the chunk written out. A
/// division by the generator in Python gives the same.
const FIRST: Coded = Coded {
    first: 1,
    step: 1,
    length: 207,
    parity: [
        134, 241, 157, 99, 234, 69, 126, 243, 32, 220, 255, 33, 223, 236, 102, 16, 80, 191, 160,
        126, 157, 87, 65, 32, 21, 9, 93, 227, 169, 141, 156, 254, 179, 176, 78, 176, 196, 159, 24,
        76, 55, 5, 88, 164, 97, 254, 82, 32,
    ],
};

const FIRST_WORD: &Coded = &FIRST;

/// The others are made in the same way.
const CODED: [Coded; 12] = [
    FIRST,
    Coded {
        first: 0,
        step: 0,
        length: 0,
        parity: [
            0, 0, 0, 0, 0, 0, 0, 0, 0, 0, 0, 0, 0, 0, 0, 0, 0, 0, 0, 0, 0, 0, 0, 0, 0, 0, 0, 0, 0,
            0, 0, 0, 0, 0, 0, 0, 0, 0, 0, 0, 0, 0, 0, 0, 0, 0, 0, 0,
        ],
    },
    Coded {
        first: 1,
        step: 0,
        length: 1,
        parity: [
            134, 202, 102, 119, 243, 185, 216, 63, 92, 13, 14, 164, 242, 175, 241, 74, 171, 191,
            44, 243, 158, 177, 247, 4, 24, 10, 15, 243, 120, 9, 143, 108, 185, 9, 57, 102, 37, 117,
            59, 137, 85, 251, 31, 72, 25, 20, 149, 150,
        ],
    },
    Coded {
        first: 255,
        step: 0,
        length: 207,
        parity: [
            255, 255, 255, 255, 255, 255, 255, 255, 255, 255, 255, 255, 255, 255, 255, 255, 255,
            255, 255, 255, 255, 255, 255, 255, 255, 255, 255, 255, 255, 255, 255, 255, 255, 255,
            255, 255, 255, 255, 255, 255, 255, 255, 255, 255, 255, 255, 255, 255,
        ],
    },
    Coded {
        first: 0,
        step: 1,
        length: 207,
        parity: [
            194, 254, 173, 219, 104, 84, 71, 205, 188, 157, 1, 198, 10, 155, 167, 211, 212, 46, 86,
            171, 84, 62, 220, 193, 7, 72, 244, 86, 88, 148, 189, 157, 64, 142, 195, 18, 100, 194,
            172, 232, 62, 33, 194, 173, 163, 219, 169, 101,
        ],
    },
    Coded {
        first: 7,
        step: 11,
        length: 207,
        parity: [
            251, 106, 137, 182, 237, 175, 108, 62, 89, 79, 133, 31, 126, 25, 233, 214, 250, 35,
            130, 236, 254, 211, 245, 141, 2, 239, 138, 68, 187, 224, 54, 208, 147, 105, 130, 92,
            180, 150, 49, 110, 163, 5, 232, 47, 71, 247, 242, 229,
        ],
    },
    Coded {
        first: 200,
        step: 251,
        length: 206,
        parity: [
            232, 116, 134, 30, 231, 240, 134, 232, 121, 71, 191, 12, 101, 249, 7, 144, 70, 64, 106,
            41, 69, 50, 27, 244, 138, 45, 157, 183, 224, 161, 121, 2, 191, 226, 91, 79, 149, 156,
            232, 174, 101, 198, 247, 95, 205, 227, 234, 69,
        ],
    },
    Coded {
        first: 128,
        step: 3,
        length: 160,
        parity: [
            222, 223, 66, 186, 238, 102, 11, 44, 228, 231, 9, 244, 172, 151, 245, 236, 118, 200,
            26, 162, 121, 210, 7, 131, 123, 181, 219, 13, 15, 204, 199, 144, 171, 83, 218, 196,
            180, 133, 132, 191, 187, 170, 182, 143, 54, 131, 33, 138,
        ],
    },
    Coded {
        first: 17,
        step: 29,
        length: 104,
        parity: [
            167, 167, 207, 111, 148, 1, 32, 164, 74, 103, 212, 55, 29, 92, 2, 32, 212, 34, 49, 220,
            76, 189, 177, 131, 176, 107, 73, 172, 238, 104, 208, 192, 247, 47, 242, 194, 242, 183,
            213, 97, 119, 119, 238, 255, 51, 249, 62, 217,
        ],
    },
    Coded {
        first: 90,
        step: 85,
        length: 52,
        parity: [
            17, 197, 200, 199, 140, 214, 170, 51, 82, 167, 69, 122, 89, 93, 162, 235, 187, 137,
            155, 22, 127, 77, 114, 202, 165, 141, 253, 53, 234, 141, 130, 140, 97, 237, 110, 44,
            150, 36, 251, 20, 146, 6, 135, 242, 0, 139, 44, 169,
        ],
    },
    Coded {
        first: 255,
        step: 1,
        length: 2,
        parity: [
            90, 27, 159, 43, 146, 235, 179, 177, 10, 143, 147, 47, 109, 152, 113, 121, 67, 211,
            230, 146, 186, 64, 73, 219, 224, 72, 108, 146, 71, 84, 14, 215, 235, 84, 137, 159, 178,
            200, 106, 54, 94, 57, 39, 154, 31, 144, 13, 17,
        ],
    },
    Coded {
        first: 77,
        step: 201,
        length: 33,
        parity: [
            190, 206, 5, 70, 159, 208, 79, 100, 185, 123, 122, 49, 84, 118, 30, 170, 53, 116, 154,
            240, 178, 55, 77, 86, 143, 227, 188, 108, 121, 73, 197, 208, 161, 137, 121, 37, 205,
            183, 147, 112, 190, 221, 97, 249, 21, 52, 78, 201,
        ],
    },
];

const WORDS: &[Coded] = &CODED;

/// Places of a word: the first, the last, every fifth, and three samples by Python's `random`.
const PLACES: &[[u8; 48]] = &[
    [
        0, 1, 2, 3, 4, 5, 6, 7, 8, 9, 10, 11, 12, 13, 14, 15, 16, 17, 18, 19, 20, 21, 22, 23, 24,
        25, 26, 27, 28, 29, 30, 31, 32, 33, 34, 35, 36, 37, 38, 39, 40, 41, 42, 43, 44, 45, 46, 47,
    ],
    [
        207, 208, 209, 210, 211, 212, 213, 214, 215, 216, 217, 218, 219, 220, 221, 222, 223, 224,
        225, 226, 227, 228, 229, 230, 231, 232, 233, 234, 235, 236, 237, 238, 239, 240, 241, 242,
        243, 244, 245, 246, 247, 248, 249, 250, 251, 252, 253, 254,
    ],
    [
        0, 5, 10, 15, 20, 25, 30, 35, 40, 45, 50, 55, 60, 65, 70, 75, 80, 85, 90, 95, 100, 105,
        110, 115, 120, 125, 130, 135, 140, 145, 150, 155, 160, 165, 170, 175, 180, 185, 190, 195,
        200, 205, 210, 215, 220, 225, 230, 235,
    ],
    [
        0, 2, 5, 6, 7, 16, 24, 26, 30, 34, 53, 55, 58, 65, 68, 81, 97, 99, 108, 110, 114, 115, 120,
        124, 126, 138, 145, 151, 155, 166, 175, 178, 184, 185, 194, 195, 196, 201, 205, 213, 216,
        218, 228, 236, 241, 242, 250, 251,
    ],
    [
        5, 8, 25, 30, 47, 48, 56, 59, 72, 74, 75, 77, 85, 88, 100, 106, 108, 112, 117, 122, 126,
        127, 128, 129, 135, 141, 142, 150, 161, 164, 171, 173, 182, 184, 185, 190, 194, 195, 212,
        213, 214, 219, 220, 234, 237, 240, 247, 253,
    ],
    [
        3, 7, 11, 22, 27, 41, 43, 44, 51, 58, 62, 78, 93, 94, 95, 100, 103, 106, 112, 120, 125,
        128, 130, 133, 138, 140, 148, 151, 157, 165, 169, 170, 172, 179, 180, 187, 188, 190, 197,
        198, 199, 204, 215, 217, 225, 230, 231, 246,
    ],
];

/// The values at the 48 roots of the word that has the bytes 1 to 207 and then zeros, from a program in Python that sums
/// each byte times a power of the root.
const AT_ROOTS: [u8; 48] = [
    172, 181, 2, 130, 175, 205, 233, 90, 184, 104, 4, 227, 98, 242, 80, 24, 86, 185, 110, 19, 129,
    46, 149, 213, 155, 164, 129, 71, 79, 24, 203, 245, 138, 206, 189, 20, 150, 108, 100, 128, 89,
    225, 123, 182, 170, 77, 27, 53,
];

/// The code word of a row, by its own parity.
fn word_of(coded: &Coded) -> [u8; 255] {
    let mut word = [0; 255];
    let mut byte = coded.first;
    for (i, at) in word.iter_mut().enumerate() {
        if i < coded.length {
            *at = byte;
            byte = byte.wrapping_add(coded.step);
        } else if i >= 207 {
            *at = coded.parity[i - 207];
        }
    }
    word
}

/// The word with another byte at each of these places.
fn changed(word: &[u8; 255], places: &[u8]) -> [u8; 255] {
    let mut changed = *word;
    for place in places {
        if *place < 255 {
            changed[usize::from(*place)] ^= 0xa5;
        }
    }
    changed
}

/// The word with 0 at each of these places.
fn zeroed(word: &[u8; 255], places: &[u8]) -> [u8; 255] {
    let mut zeroed = *word;
    for place in places {
        if *place < 255 {
            zeroed[usize::from(*place)] = 0;
        }
    }
    zeroed
}

fn has_its_parity(coded: &Coded) -> bool {
    let word = word_of(coded);
    let mut parity = [7; 48];
    encode(&word[..coded.length.min(207)], &mut parity);
    parity == coded.parity
}

// The first word that hasn't its parity.
fn wrong_parity() -> Option<usize> {
    for (k, coded) in WORDS.iter().enumerate() {
        if !has_its_parity(coded) {
            return Some(k);
        }
    }
    None
}

#[test]
fn parities(rt: HostRuntime) {
    has_none(&rt, wrong_parity());
}

#[test]
fn parity_of_one(rt: HostRuntime) {
    let mut chunk = [0; 207];
    chunk[206] = 1;
    let mut parity = [0; 48];
    encode(&chunk, &mut parity);
    assert!(rt; parity[0] == 0x7a && parity[47] == 0xe4);
}

#[test]
fn parity_of_nothing(rt: HostRuntime) {
    let mut parity = [7; 48];
    encode(&[], &mut parity);
    assert!(rt; parity == [0; 48]);
}

/// Whether the values of the word at the roots are these.
fn has_values(word: &[u8; 255], values: &[u8; 48]) -> bool {
    for (j, value) in syndromes(word).iter().enumerate() {
        if value.0 != values[j] {
            return false;
        }
    }
    true
}

#[test]
fn values_at_the_roots(rt: HostRuntime) {
    let mut word = word_of(FIRST_WORD);
    assert!(rt; has_values(&word, &[0; 48]));
    for place in 207..255 {
        word[place] = 0;
    }
    assert!(rt; has_values(&word, &AT_ROOTS));
}

/// Whether the erased places of this word are filled so that it becomes that one.
fn becomes(erased: &[u8; 255], places: &[u8], word: &[u8; 255]) -> bool {
    let mut filled = *erased;
    are_places(places) && solve(&mut filled, places) == Ok(()) && filled == *word
}

/// Whether this word is refused for this fault, and left as it is.
fn is_refused(word: &[u8; 255], places: &[u8], fault: SolveFault) -> bool {
    let mut filled = *word;
    are_places(places) && solve(&mut filled, places) == Err(fault) && filled == *word
}

fn is_filled(word: &[u8; 255], places: &[u8]) -> bool {
    becomes(&zeroed(word, places), places, word) && becomes(&changed(word, places), places, word)
}

fn is_filled_at_all_places(coded: &Coded) -> bool {
    let word = word_of(coded);
    for places in PLACES {
        if !is_filled(&word, places) {
            return false;
        }
    }
    true
}

// The first word that isn't filled.
fn wrong_word() -> Option<usize> {
    for (k, coded) in WORDS.iter().enumerate() {
        if !is_filled_at_all_places(coded) {
            return Some(k);
        }
    }
    None
}

#[test]
fn erased_places(rt: HostRuntime) {
    has_none(&rt, wrong_word());
}

// The first places that aren't refused where one byte more is wrong.
fn wrong_places() -> Option<usize> {
    let wrong = changed(&word_of(FIRST_WORD), &[254]);
    for (k, places) in PLACES.iter().enumerate() {
        if places[46] < 254 && !is_refused(&wrong, &places[..47], SolveFault::NoCodeWord) {
            return Some(k);
        }
    }
    None
}

#[test]
fn one_more_byte_is_wrong(rt: HostRuntime) {
    has_none(&rt, wrong_places());
}

#[test]
fn nothing_is_erased(rt: HostRuntime) {
    let code_word = word_of(FIRST_WORD);
    assert!(rt; becomes(&code_word, &[], &code_word));
    let mut word = [0; 255];
    word[0] = 1;
    assert!(rt; is_refused(&word, &[], SolveFault::NoCodeWord));
}

#[test]
fn too_many_are_erased(rt: HostRuntime) {
    let mut places = [0; 49];
    for (i, place) in places.iter_mut().enumerate() {
        *place = i as u8;
    }
    let code_word = word_of(FIRST_WORD);
    assert!(rt; is_refused(&code_word, &places, SolveFault::TooMany { count: 49 }));
}
