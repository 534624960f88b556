//! The book that paths share, and the lock on it.

ghost use Rattle.std.specs.Prelude.{ℕ, ◌≡◌, ◌+◌, ◌≤◌, ◌<◌, length, slice_index_or, IfOk};
ghost use Rattle.recv_reading.specs.Options.{IsWithinLimits};
ghost use Rattle.recv_reading.specs.Values.{packet_range};
ghost use Rattle.drm_paths.specs.State.{bytes_in, most_bytes, new_path, with_datagram};
ghost use Rattle.drm_paths.specs.declared.shared.Given.{Given};

use crate::{Book, Path, Road};
use drm_bits::NoMemory;
use drm_lists::OwnedList;
use recv_reading::PacketRange;
use report_journal::{Event, Journal};
use std::alloc::Global;
use std::sync::ledger::Blank;
use std::sync::{Mutex, Wait};

/// A book that paths share.
#[derive(Drop)]
pub struct Shared<G: Road> {
    book: Mutex<Book<G>>,
}

impl<G: Road> Shared<G> {
    // The book, which no path hands anything to any more. Nothing is known of it but what each book keeps.
    pub(crate) fn into_book(self) -> Book<G> {
        let Shared { book } = self;
        book.into_inner()
    }
}

/// What becomes of a datagram that a path hands to the book.
#[derive(Clone, Copy, Debug, PartialEq, Eq)]
pub enum Given {
    Took,
    NoMemory,
}

impl<G: Road> Path<G> {
    /// Hands a datagram to the book, which is locked for this one event.
    pub fn give<R: Wait>(
        &mut self,
        rt: &R,
        alloc: Global,
        shared: &Shared<G>,
        datagram: &[u8],
    ) -> Given
        requires room { bytes_in self.old.taken + length datagram.now ≤ most_bytes }
        ensures took { result ≡ Given.Took → self.new ≡ with_datagram self.old datagram.now }
        ensures none { result ≡ Given.NoMemory → self.new ≡ self.old }
    {
        let event = shared.book.lock(rt).event(alloc, self, datagram);
        match event {
            Event::Took(_) => Given::Took,
            Event::NoMemory => Given::NoMemory,
        }
    }
}

/// The paths of a run, in the order of their numbers.
pub type Paths<G> = OwnedList<Path<G>>;

/// Opens a book and its paths, numbered from 0.
pub fn open_paths<G: Road>(
    alloc: Global,
    blank: Blank,
    options: PacketRange,
    paths: u8,
) -> Result<(Shared<G>, Paths<G>), NoMemory>
    requires blank { (blank.name ≡ G.name) × (blank.parts ≡ G.parts) × (G.parts ≡ paths) }
    requires options { options ≡ packet_range G.window G.reach G.first G.frames }
    requires range { IsWithinLimits options }
    ensures same_count { IfOk result (λ r. length r.1 ≡ paths) }
    ensures new { IfOk result (λ r. (k : ℕ) (d : _) → k < paths → slice_index_or r.1 k d ≡ new_path k) }
{
    let journal = Journal::make(alloc, options)?;
    let (total, mut all) = blank.open::<G>();
    let mut list = OwnedList::new(alloc);
    for number in 0..paths {
        let share = all.split_off(1, 0);
        list.push(Path::new(alloc, number, share))?;
    }
    let book = Mutex::new(Book::new(journal, total));
    Ok((Shared { book }, list))
}
