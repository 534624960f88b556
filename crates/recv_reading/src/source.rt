//! Where datagrams come from.

ghost use Rattle.std.specs.Prelude.{ℕ, ◌≡◌, ◌<◌, ◌≤◌, List, ◌++◌, length, IfErr, OnOk};
ghost use Rattle.drm_links.specs.Link.{Answer};
ghost use Rattle.drm_links.specs.Known.{RisesWhere};
ghost use Rattle.drm_links.specs.Hearing.{LinkHeard};
ghost use Rattle.dcp_collect.specs.declared.taken.Taken.{Taken};
ghost use Rattle.dcp_collect.specs.Runs.{CollectorItem};
ghost use Rattle.recv_reading.specs.declared.options.ReceiveOptions.{ReceiveOptions};
ghost use Rattle.recv_reading.specs.First.{KeepsFirst};
ghost use Rattle.recv_reading.specs.State.{ahead};
ghost use Rattle.recv_reading.specs.ReadingReached.{ReadingReached, HasReached, ReadingWaits, ReadsOn};
ghost use Rattle.recv_reading.specs.Source.{ReadSoFar, StopsReading, BreaksLink, IsFailedCall, IsOfLink, IsOfCapture};

use crate::reading::Reading;
use capture_reader::{CaptureStop, Packets};
use dcp_collect::{Collector, Taken};
use drm_links::{Came, Link, Source};

/// Why no datagram can be had any more.
#[derive(Clone, Copy, Debug, PartialEq, Eq)]
pub enum SourceFault {
    /// The link failed.
    Link,
    /// No more packets can be read.
    Capture(CaptureStop),
}

impl From<CaptureStop> for SourceFault {
    ghost use Rattle.std.specs.Prelude.{◌≡◌};
    ghost use Rattle.recv_reading.specs.declared.source.SourceFault.TheVariants.{Capture};

    ghost from_gives = { λ stop why. why ≡ Capture stop };

    fn from(stop: CaptureStop) -> Self {
        SourceFault::Capture(stop)
    }
}

/// How datagrams are taken from where they come, and what is wanted for it.
pub trait Datagrams<F> {
    ghost use Rattle.recv_reading.specs.declared.source.SourceFault.{SourceFault};

    /// These answers came since it was as at the start.
    ghost so_far: { F → Self → F → List Answer → Type 0 };

    /// These answers came, and for this reason no more can.
    ghost until: { F → SourceFault → F → List Answer → Type 0 };

    ghost is_ready: { Self → Type 0 };

    /// Why it can fail.
    ghost fails: { SourceFault → Type 0 };

    /// How often a call has failed.
    ghost faults: { F → ℕ };

    /// Takes the next answer to the reading.
    fn feed(
        &mut self,
        from: &mut F,
        reading: &mut Reading,
        collector: &mut Collector,
    ) -> Result<Option<Taken>, SourceFault>
        requires reader { is_ready self.old }
        requires waits { ReadingWaits reading.old collector.old }
        requires below_limit { reading.old.taken < reading.old.bounds.limit }
        requires reached { HasReached reading.old collector.old }
        ensures reads { (start : F) (options : ReceiveOptions) (answers : List Answer) (taken : List Taken)
            (during more : List CollectorItem)
            → so_far start self.old from.old answers → ReadingReached options answers taken during more reading.old collector.old
            → ReadsOn (so_far start self.new from.new) (λ fault. until start fault from.new) options answers taken (during ++ more) result
            reading.new collector.new }
        ensures less { OnOk result (ahead reading.new collector.new < ahead reading.old collector.old) }
        ensures first { KeepsFirst collector.old collector.new }
        ensures reader { is_ready self.new }
        ensures kind { IfErr result fails }
        ensures cause { RisesWhere (faults from.old) (faults from.new) (IsFailedCall result) };
}

/// The room for one datagram of a link: 65,536 bytes.
#[derive(Drop)]
pub struct ReceiveBuffer<'a> {
    pub bytes: &'a mut [u8],
}

impl<'a, L: Link> Datagrams<L> for ReceiveBuffer<'a> {
    ghost so_far = { λ start reader from answers. LinkHeard (L.known start) (L.known from) answers };

    ghost until = { λ start fault from answers. BreaksLink fault (L.known start) (L.known from) answers };

    ghost is_ready = { λ reader. 65536 ≤ length reader.bytes.now };

    ghost fails = { IsOfLink };

    ghost faults = { λ from. (L.known from).faults };

    fn feed(
        &mut self,
        from: &mut L,
        reading: &mut Reading,
        collector: &mut Collector,
    ) -> Result<Option<Taken>, SourceFault> {
        let reader = &mut *self.bytes;
        match from.recv(reader) {
            Came::Datagram(len) => Ok(Some(reading.take(collector, &reader[..len]))),
            Came::Idle => {
                reading.idle(collector);
                Ok(None)
            }
            Came::Failed => Err(SourceFault::Link),
        }
    }
}

impl<I: Source> Datagrams<I> for Packets {
    ghost so_far = { λ start reader from answers. ReadSoFar reader (I.known start) (I.known from) answers };

    ghost until = { λ start fault from answers. StopsReading fault (I.known start) (I.known from) answers };

    ghost is_ready = { λ reader. Unit {0} };

    ghost fails = { IsOfCapture };

    ghost faults = { λ from. (I.known from).faults };

    fn feed(
        &mut self,
        from: &mut I,
        reading: &mut Reading,
        collector: &mut Collector,
    ) -> Result<Option<Taken>, SourceFault> {
        if self.find(from)? {
            let packet = self.next();
            Ok(Some(reading.take(collector, packet.bytes)))
        } else {
            reading.end(collector);
            Ok(None)
        }
    }
}
