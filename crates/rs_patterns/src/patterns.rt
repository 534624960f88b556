//! Patterns of erased places that are kept, prepared for chunks before.

ghost use Rattle.std.specs.Prelude.{◌≡◌, ◌+◌, ◌%◌, ◌<◌, ◌≤◌, ◌↔◌, true, length, take, IfOk, IfSome, IsOk, OnOk};
ghost use Rattle.rs_erase.specs.Code.{HasCodeWord};
ghost use Rattle.rs_erase.specs.Spaced.{HasMessage};
ghost use Rattle.rs_patterns.specs.Positions.{erased_positions};
ghost use Rattle.rs_patterns.specs.Patterns.{AreKept, IsErased, IsFor, IsWellFormed};
ghost use Rattle.rs_patterns.specs.Marks.{is_marked};

use crate::erased::write_erased;
use crate::spacings::Spacings;
use drm_bits::NoMemory;
use rs_erase::{SolveFault, SpacedPattern, Spacing, solve, solve_spaced};
use std::alloc::Global;
use std::marker::Model;

// How many are kept: enough for packets of up to 64 fragments and of two sizes by turns, as where each third has a block.
const KEPT: usize = 128;

// Two places may have the patterns of chunks that begin with the same fragment.
const SETS: usize = KEPT / 2;

// Of packets with more fragments none is kept.
const MOST_MARKS: usize = 255;

// In chunks of so few bytes, and in packets of more fragments than these, erased places are taken for runs of neighbours: all
// places of the chunk are few runs then, or a fragment has few places of it.
const FEW_BYTES: usize = 64;

const MANY_FRAGMENTS: usize = 64;

// A pattern, and for which chunks it is: those of packets with so many fragments, of which the same ones are marked, that
// have so many bytes and begin with this fragment.
#[derive(Drop)]
pub(crate) struct Kept {
    pub(crate) count: usize,
    pub(crate) k: usize,
    pub(crate) first: usize,
    pub(crate) marks: [bool; MOST_MARKS],
    // How far apart the places of its runs are.
    pub(crate) distance: u8,
    // None where the erased bytes stand in too many runs.
    pub(crate) pattern: Option<SpacedPattern>,
}

/// Patterns for the chunks of the packets that come next: a packet's chunks have few, and the next one's are the same as long as
/// the same fragments are missing.
///
/// No answer depends on what is kept.
#[derive(Drop)]
pub struct Patterns {
    // For each set of two places whether the second was used last.
    second: [bool; SETS],
    // Of places that belong to one fragment.
    spacings: Spacings,
    kept: Vec<Kept>,
}

impl Model for Patterns {
    ghost use Rattle.std.specs.Prelude.{ℕ, length};
    ghost use Rattle.rs_patterns.specs.Patterns.{AreKept};

    // What is seen of them: how many there are.
    ghost Value = { ℕ };

    ghost view = { λ p. length p.kept.items };

    ghost invariant = { λ p. AreKept p.kept.items };
}

impl Patterns {
    /// Patterns of no packet.
    pub fn make(alloc: Global) -> Result<Patterns, NoMemory> {
        let kept = no_patterns(alloc)?;
        Ok(Patterns {
            second: [false; SETS],
            spacings: Spacings::make(),
            kept,
        })
    }

    /// Fills the erased bytes of the chunk that starts at a place, in its word. Those of its parity don't matter.
    pub fn solve(
        &mut self,
        marks: &[bool],
        count: usize,
        k: usize,
        start: usize,
        word: &mut [u8; 255],
    ) -> Result<(), SolveFault>
        requires { IsErased count k start marks.now }
        ensures solved { IsOk result ↔ HasCodeWord (erased_positions count (is_marked marks.now) start k (k + 48)) word.old }
        ensures message { OnOk result (HasMessage (erased_positions count (is_marked marks.now) start k (k + 48)) word.old word.new) }
    {
        if count > MOST_MARKS {
            return solve_once(&mut self.spacings, marks, count, k, start, word);
        }
        let first = start % count;
        let set = first % SETS;
        let second = is_second(&self.kept, self.second[set], set, marks, count, k, first);
        self.second[set] = second;
        let place = if second { set + SETS } else { set };
        solve_at(
            &mut self.kept,
            place,
            &mut self.spacings,
            marks,
            count,
            k,
            start,
            word,
        )
    }
}

// As many patterns as are kept, of no chunks.
fn no_patterns(alloc: Global) -> Result<Vec<Kept>, NoMemory>
    ensures { IfOk result (λ patterns. AreKept patterns.items) }
{
    let mut patterns = Vec::with_capacity(alloc, KEPT)?;
    for _ in 0..KEPT {
        let none = Kept {
            count: 0,
            k: 0,
            first: 0,
            marks: [false; MOST_MARKS],
            distance: 1,
            pattern: None,
        };
        if patterns.push(none).is_err() {
            return Err(NoMemory);
        }
    }
    Ok(patterns)
}

// Which place of a set is for these chunks: the second has their pattern, or neither has it and the first was used last.
fn is_second(
    kept: &[Kept],
    last: bool,
    set: usize,
    marks: &[bool],
    count: usize,
    k: usize,
    first: usize,
) -> bool
    requires there { set + 64 < length kept.now }
    requires within_limit { count ≤ 255 }
    requires room { count ≤ length marks.now }
{
    !is_for(&kept[set], marks, count, k, first)
        && (!last || is_for(&kept[set + SETS], marks, count, k, first))
}

// Whether it is for these chunks.
fn is_for(kept: &Kept, marks: &[bool], count: usize, k: usize, first: usize) -> bool
    requires within_limit { count ≤ 255 }
    requires room { count ≤ length marks.now }
    ensures { result ≡ true → IsFor kept.now count k first marks.now }
{
    kept.count == count
        && kept.k == k
        && kept.first == first
        && have_same(&kept.marks, marks, count)
}

// Whether the first marks of both are the same.
fn have_same(marks: &[bool], others: &[bool], count: usize) -> bool
    requires room { count ≤ length marks.now }
    requires other_room { count ≤ length others.now }
    ensures { result ≡ true → take count marks.now ≡ take count others.now }
{
    marks[..count] == others[..count]
}

// Solves by the pattern at a place, which is made the chunk's.
fn solve_at(
    kept: &mut [Kept],
    place: usize,
    spacings: &mut Spacings,
    marks: &[bool],
    count: usize,
    k: usize,
    start: usize,
    word: &mut [u8; 255],
) -> Result<(), SolveFault>
    requires kept { AreKept kept.old }
    requires there { place < 128 }
    requires within_limit { count ≤ 255 }
    requires erased { IsErased count k start marks.now }
    ensures kept { AreKept kept.new }
    ensures solved { IsOk result ↔ HasCodeWord (erased_positions count (is_marked marks.now) start k (k + 48)) word.old }
    ensures message { OnOk result (HasMessage (erased_positions count (is_marked marks.now) start k (k + 48)) word.old word.new) }
{
    solve_kept(&mut kept[place], spacings, marks, count, k, start, word)
}

// Solves by this pattern, which is made the chunk's.
fn solve_kept(
    kept: &mut Kept,
    spacings: &mut Spacings,
    marks: &[bool],
    count: usize,
    k: usize,
    start: usize,
    word: &mut [u8; 255],
) -> Result<(), SolveFault>
    requires right { IsWellFormed kept.old }
    requires within_limit { count ≤ 255 }
    requires erased { IsErased count k start marks.now }
    ensures right { IsWellFormed kept.new }
    ensures solved { IsOk result ↔ HasCodeWord (erased_positions count (is_marked marks.now) start k (k + 48)) word.old }
    ensures message { OnOk result (HasMessage (erased_positions count (is_marked marks.now) start k (k + 48)) word.old word.new) }
{
    make_ready(kept, spacings, marks, count, k, start);
    spacings.turn_to(kept.distance);
    if let Some(pattern) = &kept.pattern {
        return solve_spaced(pattern, spacings.last(), word);
    }
    solve_by_places(marks, count, k, start, word)
}

// Sees to it that it is for these chunks, with their pattern, where they have one.
fn make_ready(
    kept: &mut Kept,
    spacings: &mut Spacings,
    marks: &[bool],
    count: usize,
    k: usize,
    start: usize,
)
    requires right { IsWellFormed kept.old }
    requires within_limit { count ≤ 255 }
    requires erased { IsErased count k start marks.now }
    ensures right { IsWellFormed kept.new }
    ensures is_for { IsFor kept.new count k (start % count) marks.now }
{
    if !is_for(kept, marks, count, k, start % count) {
        note(kept, marks, count, k, start % count);
        prepare_kept(kept, spacings, marks, count, k, start);
    }
}

// From now on it is for these chunks, without a pattern.
fn note(kept: &mut Kept, marks: &[bool], count: usize, k: usize, first: usize)
    requires within_limit { count ≤ 255 }
    requires room { count ≤ length marks.now }
    ensures right { IsWellFormed kept.new }
    ensures is_for { IsFor kept.new count k first marks.now }
{
    kept.count = count;
    kept.k = k;
    kept.first = first;
    copy_first(&mut kept.marks, marks, count);
    kept.pattern = None;
}

// Writes the first marks of others over these.
fn copy_first(marks: &mut [bool], others: &[bool], count: usize)
    requires room { count ≤ length marks.old }
    requires other_room { count ≤ length others.now }
    ensures { take count marks.new ≡ take count others.now }
{
    marks[..count].copy_from_slice(&others[..count]);
}

// Prepares its pattern, with runs at the distance that suits such chunks, or of neighbours where these would be too many.
fn prepare_kept(
    kept: &mut Kept,
    spacings: &mut Spacings,
    marks: &[bool],
    count: usize,
    k: usize,
    start: usize,
)
    requires is_for { IsFor kept.old count k (start % count) marks.now }
    requires within_limit { count ≤ 255 }
    requires erased { IsErased count k start marks.now }
    ensures right { IsWellFormed kept.new }
    ensures is_for { IsFor kept.new count k (start % count) marks.now }
{
    prepare_at(
        kept,
        run_distance(count, k),
        spacings,
        marks,
        count,
        k,
        start,
    );
    if kept.pattern.is_none() {
        prepare_at(kept, 1, spacings, marks, count, k, start);
    }
}

// How far apart the places of runs are best taken in such chunks.
fn run_distance(count: usize, k: usize) -> u8
    requires { count ≤ 255 }
{
    if k <= FEW_BYTES || count > MANY_FRAGMENTS {
        1
    } else {
        count as u8
    }
}

// Prepares its pattern with runs at this distance.
fn prepare_at(
    kept: &mut Kept,
    distance: u8,
    spacings: &mut Spacings,
    marks: &[bool],
    count: usize,
    k: usize,
    start: usize,
)
    requires is_for { IsFor kept.old count k (start % count) marks.now }
    requires erased { IsErased count k start marks.now }
    ensures right { IsWellFormed kept.new }
    ensures is_for { IsFor kept.new count k (start % count) marks.now }
{
    spacings.turn_to(distance);
    kept.distance = distance;
    kept.pattern = prepare(spacings.last(), marks, count, k, start);
}

// The pattern of the chunk that starts at a place, if its erased bytes stand in few runs at this distance.
fn prepare(
    spacing: &Spacing,
    marks: &[bool],
    count: usize,
    k: usize,
    start: usize,
) -> Option<SpacedPattern>
    requires { IsErased count k start marks.now }
    ensures { IfSome result (λ pattern. pattern
        ≡ record { places = erased_positions count (is_marked marks.now) start k (k + 48); distance = spacing.now }) }
{
    let mut positions = [0; 255];
    let erased = write_erased(marks, count, k, start, &mut positions);
    SpacedPattern::prepare(&positions[..erased], spacing)
}

// Solves by a pattern that isn't kept.
fn solve_once(
    spacings: &mut Spacings,
    marks: &[bool],
    count: usize,
    k: usize,
    start: usize,
    word: &mut [u8; 255],
) -> Result<(), SolveFault>
    requires { IsErased count k start marks.now }
    ensures solved { IsOk result ↔ HasCodeWord (erased_positions count (is_marked marks.now) start k (k + 48)) word.old }
    ensures message { OnOk result (HasMessage (erased_positions count (is_marked marks.now) start k (k + 48)) word.old word.new) }
{
    spacings.turn_to(1);
    let spacing = spacings.last();
    if let Some(pattern) = &prepare(spacing, marks, count, k, start) {
        return solve_spaced(pattern, spacing, word);
    }
    solve_by_places(marks, count, k, start, word)
}

// Solves without a pattern.
fn solve_by_places(
    marks: &[bool],
    count: usize,
    k: usize,
    start: usize,
    word: &mut [u8; 255],
) -> Result<(), SolveFault>
    requires { IsErased count k start marks.now }
    ensures solved { IsOk result ↔ HasCodeWord (erased_positions count (is_marked marks.now) start k (k + 48)) word.old }
    ensures message { OnOk result (HasMessage (erased_positions count (is_marked marks.now) start k (k + 48)) word.old word.new) }
{
    let mut positions = [0; 255];
    let erased = write_erased(marks, count, k, start, &mut positions);
    solve(word, &positions[..erased])
}
