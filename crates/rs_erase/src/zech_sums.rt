//! The logarithms of products of sums of locators: of each place of a word and some places, for all places at once.
//!
//! The sum of the locators of two places is the one's times a sum of 1 and a power of 2, and that power only depends on how far
//! they stand apart. So the logarithms of the latter sums stand in one table, and for a run of places at one distance their sum is
//! the difference of two running sums.

ghost use Rattle.std.specs.Prelude.{◌≡◌, ◌≢◌, ◌<◌, ◌≤◌, ◌+◌, ◌-◌, ◌*◌, ◌^◌, ℕ, length, slice_index};
ghost use Rattle.gf_field.specs.Field.{power};
ghost use Rattle.rs_erase.specs.Code.{ArePlaces};
ghost use Rattle.rs_erase.specs.Equations.{locators_of};
ghost use Rattle.rs_erase.specs.Prepared.{AreWeights};
ghost use Rattle.rs_erase.specs.Spaced.{AreFactors};
ghost use Rattle.rs_erase.specs.Zech.{runs_sum, zech_sum, AreRunningSums, AreRunsWithin, AreZechLogarithms};
ghost use Rattle.rs_erase.specs.declared.zech_logarithms.TheConstants.{ZECH_LOGARITHMS};

use crate::zech_logarithms::ZECH_LOGARITHMS;
use gf_field::{Gf, logarithm_table, power_table};

/// The most that the logarithms of 48 places come to, a multiple of 255.
const MOST: usize = 24480;

/// Running sums, at this distance, of what the table holds.
pub fn running_sums(distance: usize) -> [u32; 768]
    ensures { AreRunningSums ZECH_LOGARITHMS distance result }
{
    let mut sums = [0; 768];
    for t in 0..768usize {
        sums[t] = sum_before(&sums, t, distance) + u32::from(logarithm_at(t % 255));
    }
    sums
}

/// The sum so far before this place, or 0.
fn sum_before(sums: &[u32; 768], t: usize, distance: usize) -> u32
    requires { t < 768 }
    ensures none { t < distance → result ≡ 0 }
    ensures later { distance ≤ t → result ≡ slice_index sums.now (t - distance) }
{
    if t < distance { 0 } else { sums[t - distance] }
}

/// What the table holds at this place.
fn logarithm_at(place: usize) -> u8
    requires { place < 512 }
    ensures { result ≡ slice_index ZECH_LOGARITHMS place }
{
    ZECH_LOGARITHMS[place]
}

/// For each place of a word the sum of what the table holds at its distances from these places. They are taken as runs of places
/// at one distance, for each of which that is the difference of two running sums.
pub fn sums_at(places: &[u8], distance: usize, running: &[u32; 768]) -> [u32; 256]
    requires places { ArePlaces places.now }
    requires enough { length places.now ≤ 48 }
    requires distance { 0 < distance }
    requires within_limit { distance < 256 }
    requires running { AreRunningSums ZECH_LOGARITHMS distance running.now }
    ensures sums { (b : ℕ) → b < 255 → slice_index result b ≡ zech_sum ZECH_LOGARITHMS b places.now }
    ensures bounded { (b : ℕ) → b < 255 → slice_index result b ≤ 255 * length places.now }
{
    let mut starts = [0; 48];
    let mut lens = [0; 48];
    let mut used = 0;
    for place in places {
        let run = run_before(&starts, &lens, used, distance, *place);
        if run < used {
            lens[run] += 1;
        } else {
            starts[used] = *place;
            lens[used] = 1;
            used += 1;
        }
    }
    sums_of_runs(&starts, &lens, used, distance, running)
}

/// The run whose next place is this one, or how many there are.
fn run_before(starts: &[u8; 48], lens: &[u8; 48], used: usize, distance: usize, place: u8) -> usize
    requires used { used ≤ 48 }
    requires within_limit { distance < 256 }
    ensures { result < used → slice_index starts.now result + distance * slice_index lens.now result ≡ place }
{
    // From the last one on, which it mostly is if runs are of neighbours.
    for n in 0..used {
        let run = used - 1 - n;
        if usize::from(starts[run]) + distance * usize::from(lens[run]) == usize::from(place) {
            return run;
        }
    }
    used
}

/// For each place of a word the sum over these runs.
fn sums_of_runs(
    starts: &[u8; 48],
    lens: &[u8; 48],
    used: usize,
    distance: usize,
    running: &[u32; 768],
) -> [u32; 256]
    requires used { used ≤ 48 }
    requires distance { 0 < distance }
    requires within_limit { distance < 256 }
    requires within { AreRunsWithin distance starts.now lens.now used }
    requires running { AreRunningSums ZECH_LOGARITHMS distance running.now }
    ensures { (b : ℕ) → b < 255 → slice_index result b ≡ runs_sum ZECH_LOGARITHMS distance b starts.now lens.now used }
{
    let mut sums = [0; 256];
    for run in 0..used {
        let high = 510 - usize::from(starts[run]);
        let low = high - distance * usize::from(lens[run]);
        add_between(&mut sums, running, high, low);
    }
    sums
}

/// Adds to each sum the difference of what stands so far behind these places of running sums.
fn add_between(sums: &mut [u32; 256], running: &[u32; 768], high: usize, low: usize)
    requires high { high ≤ 510 }
    requires low { low ≤ high }
    requires order { (b : ℕ) → b < 256 → slice_index running.now (low + b) ≤ slice_index running.now (high + b) }
    requires fits { (b : ℕ) → b < 256 → slice_index sums.old b + slice_index running.now (high + b) < 2 ^ 32 }
    ensures { (b : ℕ) → b < 256 → slice_index sums.new b
        ≡ slice_index sums.old b + (slice_index running.now (high + b) - slice_index running.now (low + b)) }
{
    for (b, sum) in sums.iter_mut().enumerate() {
        *sum += running[high + b] - running[low + b];
    }
}

/// Writes for each place what makes 1 of what its value comes to once the other places are removed.
pub fn write_weights_by(weights: &mut [Gf], places: &[u8], sums: &[u32; 256])
    requires places { ArePlaces places.now }
    requires one_each { length weights.old ≡ length places.now }
    requires enough { length places.now ≤ 48 }
    requires sums { (b : ℕ) → b < 255 → slice_index sums.now b ≡ zech_sum ZECH_LOGARITHMS b places.now }
    requires bounded { (b : ℕ) → b < 255 → slice_index sums.now b ≤ 255 * length places.now }
    ensures { AreWeights (locators_of places.now) weights.new }
{
    // For its clause alone.
    zech_table();
    for (j, weight) in weights.iter_mut().enumerate() {
        let place = usize::from(places[j]);
        let logarithm = places.len() * (254 - place) + sums[place] as usize;
        *weight = Gf::power((MOST - logarithm) as u32);
    }
}

/// For each symbol of a parity the product of the sums of its locator and those of the places.
pub fn factors_by(places: &[u8], sums: &[u32; 256]) -> [u8; 48]
    requires places { ArePlaces places.now }
    requires enough { length places.now ≤ 48 }
    requires sums { (b : ℕ) → b < 255 → slice_index sums.now b ≡ zech_sum ZECH_LOGARITHMS b places.now }
    requires bounded { (b : ℕ) → b < 255 → slice_index sums.now b ≤ 255 * length places.now }
    ensures { AreFactors (locators_of places.now) result }
{
    // For its clause alone.
    zech_table();
    let mut factors = factors_of_others(places.len(), sums);
    clear_erased(&mut factors, places);
    factors
}

/// The same, but right only where the symbol itself isn't erased.
fn factors_of_others(count: usize, sums: &[u32; 256]) -> [u8; 48]
    requires enough { count ≤ 48 }
    requires bounded { (b : ℕ) → b < 255 → slice_index sums.now b ≤ 255 * count }
    ensures { (p : ℕ) → p < 48 → slice_index result p ≡ power (count * (47 - p) + slice_index sums.now (207 + p)) }
{
    let mut factors = [0; 48];
    for p in 0..48usize {
        factors[p] = Gf::power((count * (47 - p) + sums[207 + p] as usize) as u32).0;
    }
    factors
}

/// Clears the factors of those symbols that are erased.
fn clear_erased(factors: &mut [u8; 48], places: &[u8])
    requires { ArePlaces places.now }
    ensures cleared { (p j : ℕ) → p < 48 → j < length places.now → slice_index places.now j ≡ 207 + p → slice_index factors.new p ≡ 0 }
    ensures others { (p : ℕ) → p < 48 → ((j : ℕ) → j < length places.now → slice_index places.now j ≢ 207 + p)
        → slice_index factors.new p ≡ slice_index factors.old p }
{
    for place in places {
        if *place >= 207 {
            factors[usize::from(*place) - 207] = 0;
        }
    }
}

/// What the table holds.
pub fn zech_table()
    ensures { AreZechLogarithms ZECH_LOGARITHMS }
{
    logarithm_table();
    power_table();
}
