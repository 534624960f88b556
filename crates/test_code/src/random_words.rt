//! The crates' bodies beside the plain ones, over all elements and over many pseudo-random words.

use crate::places::are_places;
use crate::plain;
use crate::wrong::has_none;
use gf_field::{Gf, LOGS, POWERS, mul_lanes, scaled};
use rs_erase::{SolveFault, SpacedPattern, Spacing, encode, solve, solve_spaced, syndromes};
use std::simd::prelude::*;

/// How many words a test compares.
const WORDS: usize = 1000;

/// Pseudo-random numbers: Marsaglia's xorshift with the shifts 13, 7 and 17.
#[derive(Drop)]
struct Random(u64);

impl Random {
    /// The next byte.
    fn byte(&mut self) -> u8 {
        self.0 ^= self.0.wrapping_shl(13);
        self.0 ^= self.0 >> 7;
        self.0 ^= self.0.wrapping_shl(17);
        ((self.0 >> 24) % 256) as u8
    }

    /// The next bytes.
    fn fill(&mut self, bytes: &mut [u8]) {
        for byte in bytes.iter_mut() {
            *byte = self.byte();
        }
    }

    /// A code word.
    fn code_word(&mut self) -> [u8; 255] {
        let mut chunk = [0; 207];
        self.fill(&mut chunk);
        let mut parity = [0; 48];
        encode(&chunk, &mut parity);
        let mut word = [0; 255];
        for (i, byte) in word.iter_mut().enumerate() {
            *byte = if i < 207 { chunk[i] } else { parity[i - 207] };
        }
        word
    }

    /// At most 48 places of a word, in order, and how many.
    fn places(&mut self) -> ([u8; 48], usize) {
        let mut places = [0; 48];
        let mut count = 0;
        let likely = self.byte() / 3;
        for place in 0..255u8 {
            if count < 48 && self.byte() < likely {
                places[count] = place;
                count += 1;
            }
        }
        (places, count)
    }
}

/// Whether the products of this element and each one are so.
fn has_its_products(a: u8) -> bool {
    for b in 0..=255u8 {
        if Gf(a).mul(Gf(b)).0 != plain::product(a, b) {
            return false;
        }
    }
    true
}

/// The first element that isn't so.
fn wrong_products() -> Option<usize> {
    for byte in 0..=255u8 {
        if !has_its_products(byte) {
            return Some(usize::from(byte));
        }
    }
    None
}

#[test]
fn all_products(rt: HostRuntime) {
    has_none(&rt, wrong_products());
}

/// The first power of 2 that isn't in both tables.
fn wrong_power() -> Option<usize> {
    let mut power = 1;
    for j in 0..255u8 {
        if POWERS[usize::from(j)] != power || LOGS[usize::from(power)] != j {
            return Some(usize::from(j));
        }
        power = plain::product(2, power);
    }
    None
}

#[test]
fn all_powers_and_logarithms(rt: HostRuntime) {
    has_none(&rt, wrong_power());
}

/// The first element that hasn't its inverse.
fn wrong_inverse() -> Option<usize> {
    for element in 1..=255u8 {
        if Gf(element).inverse().0 != plain::power(element, 254) {
            return Some(usize::from(element));
        }
    }
    None
}

#[test]
fn all_inverses(rt: HostRuntime) {
    has_none(&rt, wrong_inverse());
}

/// The products lane by lane.
fn products(a: &[u8; 16], b: &[u8; 16]) -> [u8; 16] {
    let mut products = [0; 16];
    for lane in 0..16usize {
        products[lane] = plain::product(a[lane], b[lane]);
    }
    products
}

fn lanes_agree(random: &mut Random) -> bool {
    let mut a = [0; 16];
    let mut b = [0; 16];
    random.fill(&mut a);
    random.fill(&mut b);
    let factor = random.byte();
    let found = mul_lanes(u8x16::from_array(a), u8x16::from_array(b)).to_array();
    let multiples = scaled(u8x16::from_array(a), factor).to_array();
    found == products(&a, &b) && multiples == products(&a, &[factor; 16])
}

/// The first word that isn't so.
fn wrong_lanes() -> Option<usize> {
    let mut random = Random(88_172_645_463_325_252);
    for i in 0..WORDS {
        if !lanes_agree(&mut random) {
            return Some(i);
        }
    }
    None
}

#[test]
fn lanes(rt: HostRuntime) {
    has_none(&rt, wrong_lanes());
}

fn parities_agree(word: &[u8; 255], length: u8) -> bool {
    let chunk = &word[..usize::from(length).min(207)];
    let mut parity = [7; 48];
    encode(chunk, &mut parity);
    parity == plain::parity(chunk, &plain::generator())
}

fn syndromes_agree(word: &[u8; 255]) -> bool {
    let values = plain::syndromes(word);
    for (j, value) in syndromes(word).iter().enumerate() {
        if value.0 != values[j] {
            return false;
        }
    }
    true
}

fn parity_and_syndromes_agree(random: &mut Random) -> bool {
    let mut word = [0; 255];
    random.fill(&mut word);
    parities_agree(&word, random.byte()) && syndromes_agree(&word)
}

fn wrong_parity() -> Option<usize> {
    let mut random = Random(2_463_534_242);
    for i in 0..WORDS {
        if !parity_and_syndromes_agree(&mut random) {
            return Some(i);
        }
    }
    None
}

#[test]
fn parities_and_syndromes(rt: HostRuntime) {
    has_none(&rt, wrong_parity());
}

/// Whether what is made of this word, whose places are erased, is what the equations give.
fn is_solved(word: &[u8; 255], places: &[u8]) -> bool {
    if !are_places(places) {
        return false;
    }
    let mut filled = *word;
    let result = solve(&mut filled, places);
    match plain::solved(word, places) {
        Some(solved) => result == Ok(()) && filled == solved,
        None => result == Err(SolveFault::NoCodeWord) && filled == *word,
    }
}

/// Puts other bytes into these places of the word.
fn erase(random: &mut Random, word: &mut [u8; 255], places: &[u8]) {
    for place in places {
        word[usize::from(*place).min(254)] = random.byte();
    }
}

fn fills_erased_places(random: &mut Random, i: usize) -> bool {
    let mut word = random.code_word();
    let (places, count) = random.places();
    let places = &places[..count.min(48)];
    erase(random, &mut word, places);
    // In every other word one byte more is wrong.
    if i % 2 == 0 {
        word[100] ^= 1;
    }
    is_solved(&word, places)
}

fn wrong_erased_places() -> Option<usize> {
    let mut random = Random(362_436_069);
    for i in 0..WORDS {
        if !fills_erased_places(&mut random, i) {
            return Some(i);
        }
    }
    None
}

#[test]
fn erased_places(rt: HostRuntime) {
    has_none(&rt, wrong_erased_places());
}

/// The places of three fragments out of sixteen that are next to one another, and how many these are.
fn lost_places(first: u8) -> ([u8; 48], usize) {
    let mut places = [0; 48];
    let mut count = 0;
    for place in 0..255u8 {
        if (u32::from(place) + 16 - u32::from(first % 16)) % 16 < 3 && count < 48 {
            places[count] = place;
            count += 1;
        }
    }
    (places, count)
}

/// Whether the message of this word is the same by a pattern of these places at a distance of sixteen.
fn is_message_alike(word: &[u8; 255], places: &[u8]) -> bool {
    if !are_places(places) || places.len() > 48 {
        return false;
    }
    let spacing = Spacing::prepare(16);
    let Some(pattern) = SpacedPattern::prepare(places, &spacing) else {
        return false;
    };
    let mut filled = *word;
    let mut alike = *word;
    let result = solve(&mut filled, places);
    spacing.distance() == 16
        && solve_spaced(&pattern, &spacing, &mut alike) == result
        && is_same_message(&alike, &filled)
}

/// Whether both words have the same first 207 bytes.
fn is_same_message(one: &[u8; 255], other: &[u8; 255]) -> bool {
    one[..207] == other[..207]
}

fn fills_spaced_places(random: &mut Random, i: usize) -> bool {
    let mut word = random.code_word();
    let (places, count) = lost_places(random.byte());
    let places = &places[..count.min(48)];
    erase(random, &mut word, places);
    // In every other word one byte more is wrong.
    if i % 2 == 0 {
        word[usize::from(random.byte()).min(254)] ^= 1;
    }
    is_message_alike(&word, places)
}

fn wrong_spaced_places() -> Option<usize> {
    let mut random = Random(521_288_629);
    for i in 0..WORDS {
        if !fills_spaced_places(&mut random, i) {
            return Some(i);
        }
    }
    None
}

#[test]
fn spaced_places(rt: HostRuntime) {
    has_none(&rt, wrong_spaced_places());
}
