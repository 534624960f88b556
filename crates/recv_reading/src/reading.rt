//! A reading, call by call.

ghost use Rattle.std.specs.Prelude.{ℕ, ◌≡◌, ◌<◌, ◌≤◌, ◌^◌, List, [], ◌∷◌, ◌++◌, true, false, None, Err, IfSome, IfErr, OnOk};
ghost use Rattle.drm_links.specs.Link.{Answer, Datagram, Idle, End};
ghost use Rattle.drm_links.specs.Known.{RisesWhere, HasCause};
ghost use Rattle.capture_reader.specs.declared.packets.CaptureStop.{CaptureStop};
ghost use Rattle.dcp_collect.specs.declared.taken.Taken.{Taken};
ghost use Rattle.dcp_collect.specs.CollectorState.{after_item, after_finish};
ghost use Rattle.dcp_collect.specs.Runs.{CollectorItem, IsItem};
ghost use Rattle.recv_reading.specs.declared.options.ReceiveOptions.{ReceiveOptions};
ghost use Rattle.recv_reading.specs.First.{KeepsFirst};
ghost use Rattle.recv_reading.specs.State.{new_reading, has_enough, has_ended, word_of, ended_by, ahead};
ghost use Rattle.recv_reading.specs.ReadingReached.{ReadingReached, HasReached, ReadingWaits, CanEnd, GivesNext, ReadsOn};
ghost use Rattle.recv_reading.specs.Source.{ReadSoFar, HeardUntil, IsFailedCall};

use crate::options::Bounds;
use crate::reason::EndWord;
use crate::source::{Datagrams, SourceFault};
use capture_reader::{CaptureStop, Packets};
use dcp_collect::{Collector, Taken};
use drm_links::Source;
use std::marker::Model;

/// What is counted of a reading, beside the collector that takes its datagrams. Where `gives` says that an item is ready, the
/// collector gives it; where none is, `read_on` asks for one answer more, until the reading has ended.
#[derive(Debug, Drop)]
pub struct Reading {
    bounds: Bounds,
    taken: u64,
    idles: u32,
    given: u64,
    end: Option<EndWord>,
}

impl Model for Reading {
    ghost use Rattle.recv_reading.specs.State.{ReadingState};

    ghost Value = { ReadingState };

    ghost view = { λ r. record { bounds = r.bounds; taken = r.taken; idles = r.idles; given = r.given; end = r.end } };
}

impl Reading {
    /// A reading for which nothing was asked yet.
    pub fn new(bounds: Bounds) -> Reading
        ensures { result ≡ new_reading bounds }
    {
        Reading {
            bounds,
            taken: 0,
            idles: 0,
            given: 0,
            end: None,
        }
    }

    /// Whether no more is read.
    pub fn has_ended(&self) -> bool
        ensures { result ≡ has_ended self.now }
    {
        self.end.is_some() || self.has_enough()
    }

    /// Why no more is read.
    pub fn word(&self) -> EndWord
        ensures { result ≡ word_of self.now.end }
    {
        self.end.unwrap_or(EndWord::Frames)
    }

    /// How many datagrams were taken.
    pub fn taken(&self) -> u64
        ensures { result ≡ self.now.taken }
    {
        self.taken
    }

    // Whether as many items were given as are asked for.
    fn has_enough(&self) -> bool
        ensures { result ≡ has_enough self.now }
    {
        match self.bounds.frames {
            Some(frames) => frames <= self.given,
            None => false,
        }
    }

    /// Whether an item is ready and not enough were given. It is counted, and `Collector::next` gives it.
    pub fn gives(&mut self, collector: &Collector) -> bool
        requires reached { HasReached self.old collector.now }
        ensures gives { GivesNext result self.old collector.now self.new }
        ensures reached { (options : ReceiveOptions) (answers : List Answer) (taken : List Taken)
            (during more : List CollectorItem) (item : CollectorItem) → ReadingReached options answers taken during more self.old collector.now
            → result ≡ true → IsItem collector.now item
            → ReadingReached options answers taken during (more ++ item ∷ []) self.new (after_item collector.now) }
        ensures less { result ≡ true → ahead self.new (after_item collector.now) < ahead self.old collector.now }
    {
        if self.has_enough() || !collector.ready() {
            return false;
        }
        self.given += 1;
        true
    }

    /// Takes a datagram that came.
    pub fn take(&mut self, collector: &mut Collector, datagram: &[u8]) -> Taken
        requires waits { ReadingWaits self.old collector.old }
        requires below_limit { self.old.taken < self.old.bounds.limit }
        requires reached { HasReached self.old collector.old }
        ensures reached { (options : ReceiveOptions) (answers : List Answer) (taken : List Taken)
            (during more : List CollectorItem) → ReadingReached options answers taken during more self.old collector.old
            → ReadingReached options (answers ++ Datagram datagram.now ∷ []) (taken ++ result ∷ []) (during ++ more) [] self.new collector.new }
        ensures less { ahead self.new collector.new < ahead self.old collector.old }
        ensures first { KeepsFirst collector.old collector.new }
    {
        let answer = collector.take(datagram);
        self.taken += 1;
        self.idles = 0;
        answer
    }

    /// Notes that nothing came for a while.
    pub fn idle(&mut self, collector: &mut Collector)
        requires waits { ReadingWaits self.old collector.old }
        requires below_limit { self.old.taken < self.old.bounds.limit }
        requires reached { HasReached self.old collector.old }
        ensures reached { (options : ReceiveOptions) (answers : List Answer) (taken : List Taken)
            (during more : List CollectorItem) → ReadingReached options answers taken during more self.old collector.old
            → ReadingReached options (answers ++ Idle ∷ []) taken (during ++ more) [] self.new collector.new }
        ensures less { ahead self.new collector.new < ahead self.old collector.old }
        ensures first { KeepsFirst collector.old collector.new }
    {
        let most = self.bounds.idle;
        self.idles += 1;
        if self.idles == most {
            self.finish(collector, EndWord::Idle);
        }
    }

    /// Notes that nothing comes any more.
    pub fn end(&mut self, collector: &mut Collector)
        requires waits { ReadingWaits self.old collector.old }
        requires below_limit { self.old.taken < self.old.bounds.limit }
        requires reached { HasReached self.old collector.old }
        ensures reached { (options : ReceiveOptions) (answers : List Answer) (taken : List Taken)
            (during more : List CollectorItem) → ReadingReached options answers taken during more self.old collector.old
            → ReadingReached options (answers ++ End ∷ []) taken (during ++ more) [] self.new collector.new }
        ensures less { ahead self.new collector.new < ahead self.old collector.old }
        ensures first { KeepsFirst collector.old collector.new }
    {
        self.finish(collector, EndWord::Input);
    }

    /// Whether as many datagrams were taken as are allowed. Then the reading ends here, and what is ready can still be given.
    pub fn stops_at_limit(&mut self, collector: &mut Collector) -> bool
        requires waits { ReadingWaits self.old collector.old }
        requires reached { HasReached self.old collector.old }
        ensures reached { (options : ReceiveOptions) (answers : List Answer) (taken : List Taken)
            (during more : List CollectorItem) → ReadingReached options answers taken during more self.old collector.old
            → result ≡ true → ReadingReached options answers taken (during ++ more) [] self.new collector.new }
        ensures less { result ≡ true → ahead self.new collector.new < ahead self.old collector.old }
        ensures first { KeepsFirst collector.old collector.new }
        ensures goes_on { result ≡ false → (self.new ≡ self.old) × (collector.new ≡ collector.old)
            × (self.old.taken < self.old.bounds.limit) }
    {
        if self.taken != self.bounds.limit {
            return false;
        }
        self.finish(collector, EndWord::Limit);
        true
    }

    /// Asks for one answer more, unless as many datagrams were taken as are allowed. What was answered to a datagram is the
    /// result. Where the reading ends here, what is ready then can still be given.
    pub fn read_on<F, R: Datagrams<F>>(
        &mut self,
        collector: &mut Collector,
        reader: &mut R,
        from: &mut F,
    ) -> Result<Option<Taken>, SourceFault>
        requires waits { ReadingWaits self.old collector.old }
        requires reached { HasReached self.old collector.old }
        requires reader { R.is_ready reader.old }
        ensures reads { (start : F) (options : ReceiveOptions) (answers : List Answer) (taken : List Taken)
            (during more : List CollectorItem)
            → R.so_far start reader.old from.old answers → ReadingReached options answers taken during more self.old collector.old
            → ReadsOn (R.so_far start reader.new from.new) (λ fault. R.until start fault from.new) options answers taken (during ++ more) result
            self.new collector.new }
        ensures less { OnOk result (ahead self.new collector.new < ahead self.old collector.old) }
        ensures first { KeepsFirst collector.old collector.new }
        ensures reader { R.is_ready reader.new }
        ensures kind { IfErr result R.fails }
        ensures cause { RisesWhere (R.faults from.old) (R.faults from.new) (IsFailedCall result) }
    {
        if self.taken == self.bounds.limit {
            self.finish(collector, EndWord::Limit);
            return Ok(None);
        }
        reader.feed(from, self, collector)
    }

    /// The same of a capture.
    pub fn read_packet<I: Source>(
        &mut self,
        collector: &mut Collector,
        packets: &mut Packets,
        input: &mut I,
    ) -> Result<Option<Taken>, CaptureStop>
        requires waits { ReadingWaits self.old collector.old }
        requires reached { HasReached self.old collector.old }
        ensures reads { (start : I) (options : ReceiveOptions) (answers : List Answer) (taken : List Taken) (during more : List CollectorItem)
            → ReadSoFar packets.old (I.known start) (I.known input.old) answers
            → ReadingReached options answers taken during more self.old collector.old
            → ReadsOn (ReadSoFar packets.new (I.known start) (I.known input.new))
            (λ stop. HeardUntil stop (I.known start) (I.known input.new)) options answers taken (during ++ more) result
            self.new collector.new }
        ensures less { OnOk result (ahead self.new collector.new < ahead self.old collector.old) }
        ensures first { KeepsFirst collector.old collector.new }
        ensures cause { HasCause (I.known input.old) (I.known input.new) (result ≡ Err CaptureStop.Read) }
    {
        match self.read_on(collector, packets, input) {
            Ok(answer) => Ok(answer),
            Err(SourceFault::Capture(stop)) => Err(stop),
            Err(SourceFault::Link) => unreachable!(),
        }
    }

    // Ends the reading: what is ready now is all that comes.
    fn finish(&mut self, collector: &mut Collector, word: EndWord)
        requires { CanEnd self.old collector.old }
        ensures ended { self.new ≡ ended_by word self.old }
        ensures finished { collector.new ≡ after_finish collector.old self.old.bounds.frames }
    {
        collector.finish(self.bounds.frames);
        self.end = Some(word);
    }
}
