//! The journal.

ghost use Rattle.std.specs.Prelude.{◌≡◌, ◌<◌, ◌^◌, ◌++◌, ◌∷◌, [], true, map, IsErr, IfOk, OnOk, OnErr, IfSome};
ghost use Rattle.report_text.specs.Report.{feed_line};
ghost use Rattle.recv_reading.specs.Options.{IsWithinLimits};
ghost use Rattle.report_journal.specs.Journal.{new_journal, datagrams, entry_of, IsKept, JournalEnters};
ghost use Rattle.report_text.specs.Tallies.{items_in};
ghost use Rattle.report_journal.specs.Report.{IsReportOf, word_for};
ghost use Rattle.report_journal.specs.Took.{IfTook};
ghost use Rattle.report_journal.specs.declared.event.Event.{Event};

use crate::lines::{is_full, write_ready};
use crate::{Ending, Event};
use dcp_collect::Collector;
use drm_bits::NoMemory;
use mod_feed::Feed;
use recv_reading::PacketRange;
use report_text::{EndWord, ReportBuffer, ReportCounts, write_feed};
use std::alloc::Global;
use std::marker::Model;

/// A datagram of a path.
#[derive(Drop)]
pub struct Entry {
    pub path: u8,
    pub datagram: Vec<u8>,
}

/// The datagrams that came over several paths, in the order in which they were entered, and the report so far of them. Where
/// there is no room for a line the report stops, and so does the journal.
#[derive(Drop)]
pub struct Journal {
    entries: Vec<Entry>,
    options: PacketRange,
    collector: Collector,
    feed: Feed,
    counts: ReportCounts,
    // The first line, and those of the items so far.
    text: Vec<u8>,
    stopped: bool,
}

impl Model for Journal {
    ghost use Rattle.report_journal.specs.Journal.{JournalState};
    ghost use Rattle.report_journal.specs.Sound.{state, JournalInvariant};

    ghost Value = { JournalState };

    ghost view = { state };

    ghost invariant = { JournalInvariant };
}

/// No journal has more entries.
const MOST_ENTRIES: usize = 1 << 40;

impl Journal {
    /// A journal without entries. All memory that taking datagrams wants, but for the entries and the lines, is taken here.
    pub fn make(alloc: Global, options: PacketRange) -> Result<Journal, NoMemory>
        requires { IsWithinLimits options }
        ensures { IfOk result (λ journal. journal ≡ new_journal options) }
    {
        let collector = Collector::make(alloc, options.window, options.reach, options.first)?;
        let counts = ReportCounts::new(alloc)?;
        let text = first_line(alloc)?;
        Ok(Journal {
            entries: Vec::new(alloc),
            options,
            collector,
            feed: Feed::new(),
            counts,
            text,
            stopped: false,
        })
    }

    /// Enters a datagram of a path, and takes it. What it makes ready goes into the report; where there is no room for that,
    /// the report stops, and nothing is entered any more.
    pub fn enter(&mut self, alloc: Global, path: u8, datagram: &[u8]) -> Event
        ensures took { IfTook result (λ answer. JournalEnters self.old (path, datagram.now) answer self.new) }
        ensures none { result ≡ Event.NoMemory → self.new ≡ self.old }
        ensures stopped { self.old.stopped ≡ true → result ≡ Event.NoMemory }
    {
        if self.stopped || self.entries.len() >= MOST_ENTRIES {
            return Event::NoMemory;
        }
        let number = self.entries.len() as u64;
        let Ok(()) = push_entry(alloc, &mut self.entries, path, datagram) else {
            return Event::NoMemory;
        };
        let taken = self.collector.take(datagram);
        self.counts.note(number, taken);
        let written = write_ready(
            alloc,
            &mut self.collector,
            &mut self.feed,
            &mut self.counts,
            self.options.frame_limit,
            &mut self.text,
        );
        self.stopped = written.is_err();
        Event::Took(taken)
    }

    /// The entries.
    pub fn entries(&self) -> &[Entry]
        ensures { map entry_of result.now ≡ self.now.entries }
    {
        &self.entries
    }

    /// Whether the report has stopped.
    pub fn is_stopped(&self) -> bool
        ensures { result ≡ self.now.stopped }
    {
        self.stopped
    }

    /// What each journal keeps: its text is the report so far of its entries, or where it has stopped a front of that.
    pub fn keeps_its_report(&self)
        ensures { IsKept self.now }
    {
        let _ = &self.entries;
    }

    /// Ends the report, where it hasn't stopped.
    pub fn finish(self, alloc: Global) -> Result<Ending, NoMemory>
        ensures whole { IfOk result (λ ending. IsReportOf self.options (datagrams self.entries) ending.text ending.clean) }
        ensures stopped { self.stopped ≡ true → IsErr result }
    {
        if self.stopped {
            return Err(NoMemory);
        }
        let Journal {
            options,
            mut collector,
            mut feed,
            mut counts,
            mut text,
            ..
        } = self;
        let word = word_for(&counts, options.frame_limit);
        collector.finish(options.frame_limit);
        write_ready(
            alloc,
            &mut collector,
            &mut feed,
            &mut counts,
            options.frame_limit,
            &mut text,
        )?;
        Ok(Ending::new(text, counts, word))
    }
}

// Puts an entry behind the others, where there is room.
fn push_entry(
    alloc: Global,
    entries: &mut Vec<Entry>,
    path: u8,
    datagram: &[u8],
) -> Result<(), NoMemory>
    ensures pushed { OnOk result (map entry_of entries.new.items ≡ map entry_of entries.old.items ++ (path, datagram.now) ∷ []) }
    ensures none { OnErr result (entries.new.items ≡ entries.old.items) }
{
    let datagram = datagram.to_vec(alloc)?;
    entries.reserve(1)?;
    entries.push_reserved(Entry { path, datagram });
    Ok(())
}

// Why a report ends where so much is counted.
fn word_for(counts: &ReportCounts, frame_limit: Option<u64>) -> EndWord
    requires { IfSome frame_limit (λ _. items_in counts.now.sums < 2 ^ 63) }
    ensures { result ≡ word_for frame_limit (items_in counts.now.sums) }
{
    if is_full(counts, frame_limit) {
        EndWord::Frames
    } else {
        EndWord::Paths
    }
}

// The first line of a report.
fn first_line(alloc: Global) -> Result<Vec<u8>, NoMemory>
    ensures { IfOk result (λ text. text.items ≡ feed_line 1) }
{
    let mut lines = ReportBuffer::new(alloc);
    let Ok(()) = write_feed(&mut lines, 1) else {
        return Err(NoMemory);
    };
    if !lines.is_complete() {
        return Err(NoMemory);
    }
    Ok(lines.bytes().to_vec(alloc)?)
}
