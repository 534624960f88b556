//! The book of a run, which stands under the lock.

ghost use Rattle.std.specs.Prelude.{◌≡◌, ◌+◌, ◌≤◌, length, map, IfOk};
ghost use Rattle.report_journal.specs.Took.{IfTook};
ghost use Rattle.report_journal.specs.Journal.{IsKept, entry_of, datagrams};
ghost use Rattle.report_journal.specs.Report.{IsReportOf};
ghost use Rattle.report_journal.specs.declared.event.Event.{Event};
ghost use Rattle.recv_reading.specs.Values.{packet_range};
ghost use Rattle.drm_paths.specs.State.{bytes_in, most_bytes, AreNumbered, IsEvent};

use crate::{Path, Road};
use drm_bits::NoMemory;
use report_journal::{Ending, Entry, Event, Journal};
use std::alloc::Global;
use std::marker::Model;
use std::sync::ledger::{Book as Total, Share};

/// A journal, and how many entries the ledger counts in it.
#[derive(Drop)]
pub struct Book<G: Road> {
    journal: Journal,
    total: Total<G>,
}

impl<G: Road> Model for Book<G> {
    ghost use Rattle.std.specs.Prelude.{◌≡◌, length};
    ghost use Rattle.recv_reading.specs.Values.{packet_range};
    ghost use Rattle.drm_paths.specs.State.{BookState, book_state, AreNumbered};

    ghost Value = { BookState };

    ghost view = { λ b. book_state b.journal b.total.total };

    ghost invariant = { λ b. (b.journal.options ≡ packet_range G.window G.reach G.first G.frames)
        × (length b.journal.entries ≡ b.total.total) × AreNumbered G.parts b.journal.entries };
}

impl<G: Road> Book<G> {
    // A book with a new journal.
    pub(crate) fn new(journal: Journal, total: Total<G>) -> Book<G>
        requires options { journal.options ≡ packet_range G.window G.reach G.first G.frames }
        requires counted { length journal.entries ≡ total.total }
        requires numbered { AreNumbered G.parts journal.entries }
        ensures { result.journal ≡ journal }
    {
        Book { journal, total }
    }

    /// Enters one datagram of a path. The path takes it too, and it counts in the ledger.
    pub fn event(&mut self, alloc: Global, path: &mut Path<G>, datagram: &[u8]) -> Event
        requires room { bytes_in path.old.taken + length datagram.now ≤ most_bytes }
        ensures took { IfTook result (λ answer. IsEvent datagram.now answer self.old self.new path.old path.new) }
        ensures none { result ≡ Event.NoMemory → (self.new ≡ self.old) × (path.new ≡ path.old) }
    {
        let Path {
            number,
            taken,
            bytes,
            share,
        } = path;
        let Ok(copy) = datagram.to_vec(alloc) else {
            return Event::NoMemory;
        };
        let Ok(()) = taken.reserve(1) else {
            return Event::NoMemory;
        };
        let Book { journal, total } = self;
        match journal.enter(alloc, *number, datagram) {
            Event::NoMemory => Event::NoMemory,
            Event::Took(answer) => {
                taken.push_reserved(copy);
                *bytes += datagram.len() as u64;
                total.add(share, 1);
                Event::Took(answer)
            }
        }
    }

    /// What each book keeps: as many entries as the ledger counts, each of one of its paths, and the report so far of them, by
    /// what its type says; or a front of that, where it has stopped.
    pub fn keeps_its_report(&self)
        ensures kept { IsKept self.now.journal }
        ensures options { self.now.journal.options ≡ packet_range G.window G.reach G.first G.frames }
        ensures counted { length self.now.journal.entries ≡ self.now.total }
        ensures numbered { AreNumbered G.parts self.now.journal.entries }
    {
        // For its clauses alone: what the journal keeps.
        self.journal.keeps_its_report();
    }

    // The entries.
    pub(crate) fn entries(&self) -> &[Entry]
        ensures are { map entry_of result.now ≡ self.now.journal.entries }
        ensures numbered { AreNumbered G.parts self.now.journal.entries }
    {
        self.journal.entries()
    }

    // Whether the report has stopped.
    pub(crate) fn is_stopped(&self) -> bool
        ensures { result ≡ self.now.journal.stopped }
    {
        self.journal.is_stopped()
    }

    // With all shares of the ledger in one: the journal has as many entries as these count.
    pub(crate) fn audit(&mut self, all: &mut Share<G>)
        requires { all.old.parts ≡ G.parts }
        ensures same { self.new ≡ self.old }
        ensures counted { length self.old.journal.entries ≡ all.old.amount }
    {
        self.total.audit(all);
    }

    // Ends the report.
    pub(crate) fn finish(self, alloc: Global) -> Result<Ending, NoMemory>
        ensures { IfOk result (λ ending. IsReportOf (packet_range G.window G.reach G.first G.frames) (datagrams self.journal.entries) ending.text ending.clean) }
    {
        let Book { journal, .. } = self;
        journal.finish(alloc)
    }
}
