//! Closing a book: what its journal has of each path is compared with what the path took.

ghost use Rattle.std.specs.Prelude.{◌≡◌, ◌<◌, ◌↔◌, IsTrue, Some, length, vec_len, map, slice_get, IfOk, IfSome, IfNone, sum_by, option_map};
ghost use Rattle.report_journal.specs.Journal.{JournalState, entry_of};
ghost use Rattle.recv_reading.specs.Values.{packet_range};
ghost use Rattle.drm_paths.specs.Closing.{of_path, IsDifference, EntriesAgree, AllAgree, IsDifferenceOf, EntriesDiffer, BookCloses};

use crate::shared::{Paths, Shared};
use crate::{Book, Path, Road};
use drm_bits::{NoMemory, Octets};
use report_journal::{Ending, Entry};
use std::alloc::Global;
use std::sync::ledger::Share;

/// The first place at which what the journal has of a path, and what the path took, differ; and what stands there, where that
/// list hasn't ended before.
#[derive(Drop)]
pub struct Difference {
    /// The path's number, from 0.
    pub path: u8,
    /// The place among the path's entries, from 0.
    pub at: u64,
    pub journal: Option<Octets>,
    pub kept: Option<Octets>,
}

/// What comes of a book that is closed.
#[derive(Drop)]
pub enum Closed {
    /// The journal has all that the paths took, and nothing else.
    Whole(Ending),
    /// What the journal has of a path isn't what that one took.
    Differ(Difference),
    /// There was no memory left, for an event or here.
    NoMemory,
}

// The first place at which the entries of a path, and what it took, differ; with what the entries have there.
fn first_difference<'a>(
    entries: &'a [Entry],
    number: u8,
    kept: &[Vec<u8>],
) -> Option<(usize, Option<&'a [u8]>)>
    ensures same { IfNone result (of_path number (map entry_of entries.now) ≡ map (λ d. d.items) kept.now) }
    ensures differs { IfSome result (λ d. IsDifference (of_path number (map entry_of entries.now)) (map (λ d. d.items) kept.now)
        d.0 (option_map (λ bytes. bytes.now) d.1)) }
{
    let mut at = 0;
    for entry in entries {
        if entry.path != number {
            continue;
        }
        let datagram = entry.datagram.as_slice();
        if !stands_at(kept, at, datagram) {
            return Some((at, Some(datagram)));
        }
        at += 1;
    }
    if at < kept.len() {
        return Some((at, None));
    }
    None
}

// Whether the datagram stands at a place of a list.
fn stands_at(kept: &[Vec<u8>], at: usize, datagram: &[u8]) -> bool
    ensures { IsTrue result ↔ (slice_get (map (λ d. d.items) kept.now) at ≡ Some datagram.now) }
{
    match bytes_at(kept, at) {
        Some(bytes) => bytes == datagram,
        None => false,
    }
}

fn copy(alloc: Global, bytes: Option<&[u8]>) -> Result<Option<Octets>, NoMemory>
    ensures { IfOk result (λ copy. copy ≡ option_map (λ bytes. bytes.now) bytes.entry) }
{
    let Some(bytes) = bytes else {
        return Ok(None);
    };
    let copy = Octets::from_slice(alloc, bytes)?;
    Ok(Some(copy))
}

// Compares what the entries have of each path with what the path took.
fn compare<G: Road>(
    alloc: Global,
    entries: &[Entry],
    paths: &[Path<G>],
) -> Result<Option<Difference>, NoMemory>
    ensures agree { IfOk result (λ found. IfNone found (AllAgree (map entry_of entries.now) paths.now)) }
    ensures differ { IfOk result (λ found. IfSome found (EntriesDiffer (map entry_of entries.now) paths.now)) }
{
    for path in paths {
        if let Some(difference) = path.difference(alloc, entries)? {
            return Ok(Some(difference));
        }
    }
    Ok(None)
}

impl<G: Road> Path<G> {
    // The first place at which what the entries have of it and what it took differ.
    fn difference(&self, alloc: Global, entries: &[Entry]) -> Result<Option<Difference>, NoMemory>
        ensures agrees { IfOk result (λ found. IfNone found (EntriesAgree (map entry_of entries.now) self.now)) }
        ensures differs { IfOk result (λ found. IfSome found (IsDifferenceOf (map entry_of entries.now) self.now)) }
    {
        let Some((at, journal)) = first_difference(entries, self.number, &self.taken) else {
            return Ok(None);
        };
        let journal = copy(alloc, journal)?;
        let kept = copy(alloc, bytes_at(&self.taken, at))?;
        Ok(Some(Difference {
            path: self.number,
            at: at as u64,
            journal,
            kept,
        }))
    }

    // Its share of the ledger.
    fn share(self) -> Share<G>
        ensures parts { (result.parts ≡ self.parts) × (result.parts ≡ 1) }
        ensures amount { result.amount ≡ length self.taken }
    {
        let Path { share, .. } = self;
        share
    }
}

fn bytes_at(list: &[Vec<u8>], at: usize) -> Option<&[u8]>
    ensures { option_map (λ bytes. bytes.now) result ≡ slice_get (map (λ d. d.items) list.now) at }
{
    if at < list.len() {
        Some(list[at].as_slice())
    } else {
        None
    }
}

// The shares of all paths in one.
fn merged<G: Road>(mut paths: Vec<Path<G>>) -> Share<G>
    requires { 0 < vec_len paths }
    ensures parts { result.parts ≡ sum_by (λ p. p.parts) paths.items }
    ensures one_each { result.parts ≡ length paths.items }
    ensures amount { result.amount ≡ sum_by (λ p. length p.taken) paths.items }
{
    let Some(first) = paths.pop() else {
        unreachable!()
    };
    let mut all = first.share();
    while let Some(path) = paths.pop() {
        all.merge(path.share());
    }
    all
}

/// Closes the book that these paths share, all of them, which hand nothing to it any more.
pub fn close_paths<G: Road>(alloc: Global, shared: Shared<G>, paths: Paths<G>) -> Closed
    requires at_least_one { 0 < length paths }
    requires each_part { sum_by (λ p. p.parts) paths ≡ G.parts }
    ensures { (journal : JournalState) × BookCloses (packet_range G.window G.reach G.first G.frames) journal paths result }
{
    close_book(alloc, shared.into_book(), paths)
}

/// Closes a book whose paths these are, all of them: the ledger proves that its journal has as many entries as they took.
/// Each path's entries are compared with what it took, and the report is ended.
pub fn close_book<G: Road>(alloc: Global, mut book: Book<G>, paths: Paths<G>) -> Closed
    requires at_least_one { 0 < length paths }
    requires each_part { sum_by (λ p. p.parts) paths ≡ G.parts }
    ensures { BookCloses (packet_range G.window G.reach G.first G.frames) book.journal paths result }
{
    if book.is_stopped() {
        return Closed::NoMemory;
    }
    let compared = compare(alloc, book.entries(), paths.as_slice());
    let mut all = merged(paths.into_vec());
    book.audit(&mut all);
    match compared {
        Err(NoMemory) => Closed::NoMemory,
        Ok(Some(difference)) => Closed::Differ(difference),
        Ok(None) => match book.finish(alloc) {
            Ok(ending) => Closed::Whole(ending),
            Err(NoMemory) => Closed::NoMemory,
        },
    }
}
