//! What a report tells behind its items: how many there were of each kind, and which datagrams were refused.

ghost use Rattle.std.specs.Prelude.{◌≡◌, ◌+◌, ◌<◌, ◌^◌, ◌↔◌, IsTrue, IfOk};
ghost use Rattle.std.specs.List.{AllByRecursion};
ghost use Rattle.drm_links.specs.Sink.{WritesWhole};
ghost use Rattle.report_text.specs.FaultWords.{IsReportable};
ghost use Rattle.report_text.specs.Report.{end_line};
ghost use Rattle.mod_feed.specs.Items.{item_of};
ghost use Rattle.report_text.specs.Reports.{refused_text};
ghost use Rattle.report_text.specs.Tallies.{new_tally, noted, counted, totals_in};
ghost use Rattle.report_text.specs.Totals.{answered};

use crate::report::{Sums, write_end, write_refused};
use crate::totals::{AnswerCounts, Totals};
use circular_buffer::HeapCircularBuffer;
use dcp_collect::Taken;
use drm_bits::NoMemory;
use drm_links::{Sink, WriteFault};
use mod_feed::FeedItem;
use recv_reading::EndWord;
use std::alloc::Global;
use std::marker::Model;

/// A datagram that was refused, or that disagrees with another one.
#[derive(Clone, Copy, Debug, PartialEq, Eq)]
pub struct Refusal {
    /// The number of the datagram in its link, from 0.
    pub number: u64,
    pub taken: Taken,
}

/// How many refusals a report shows.
const MOST_SHOWN: usize = 16;

/// What a report tells behind its items. All memory that a report wants is taken where it is made.
#[derive(Drop)]
pub struct ReportCounts {
    sums: Sums,
    answers: AnswerCounts,
    // The last refusals.
    refused: HeapCircularBuffer<Refusal>,
}

impl Model for ReportCounts {
    ghost use Rattle.std.specs.Prelude.{◌≡◌};
    ghost use Rattle.report_text.specs.Tallies.{TallyContents};

    ghost Value = { TallyContents };

    ghost view = { λ c. record { sums = c.sums; answers = c.answers; refused = c.refused.items } };

    ghost invariant = { λ c. c.refused.capacity ≡ 16 };
}

impl ReportCounts {
    /// Nothing was counted yet.
    pub fn new(alloc: Global) -> Result<ReportCounts, NoMemory>
        ensures { IfOk result (λ counts. counts ≡ new_tally) }
    {
        let refused = HeapCircularBuffer::with_capacity(alloc, MOST_SHOWN)?;
        Ok(ReportCounts {
            sums: Sums {
                given: 0,
                missing: 0,
                bad: 0,
                refused: 0,
            },
            answers: AnswerCounts {
                kept: 0,
                repeated: 0,
                late: 0,
            },
            refused,
        })
    }

    /// Counts an item.
    pub fn count(&mut self, item: &FeedItem<'_>)
        requires { self.old.sums.given + self.old.sums.missing + self.old.sums.bad < 2 ^ 62 }
        ensures { self.new ≡ counted self.old (item_of item.now) }
    {
        match item {
            FeedItem::Frame { .. } => self.sums.given += 1,
            FeedItem::Missing { .. } => self.sums.missing += 1,
            FeedItem::Bad { .. } => self.sums.bad += 1,
        }
    }

    /// Counts what was answered to the datagram with this number, and keeps it where that was refused or disagrees.
    pub fn note(&mut self, number: u64, taken: Taken)
        requires { answered (totals_in self.old) < 2 ^ 62 }
        ensures { self.new ≡ noted self.old number taken }
    {
        match taken {
            Taken::Kept => self.answers.kept += 1,
            Taken::Repeated => self.answers.repeated += 1,
            Taken::Late => self.answers.late += 1,
            Taken::Refused(_) | Taken::Inconsistent { .. } => {
                self.sums.refused += 1;
                self.refused.push_back(Refusal { number, taken });
            }
        }
    }

    /// The numbers that were counted.
    pub fn totals(&self) -> Totals
        ensures { result ≡ totals_in self.now }
    {
        Totals {
            sums: self.sums,
            answers: self.answers,
        }
    }

    /// How many items were counted.
    pub fn items(&self) -> u64
        requires { self.now.sums.given + self.now.sums.missing + self.now.sums.bad < 2 ^ 63 }
        ensures { result ≡ self.now.sums.given + self.now.sums.missing + self.now.sums.bad }
    {
        self.sums.given + self.sums.missing + self.sums.bad
    }

    /// Whether no item was missing or bad.
    pub fn is_clean(&self) -> bool
        ensures { IsTrue result ↔ ((self.now.sums.missing ≡ 0) × (self.now.sums.bad ≡ 0)) }
    {
        self.sums.missing == 0 && self.sums.bad == 0
    }

    /// Writes the lines of the last refusals.
    pub fn write_refused<O: Sink>(&self, out: &mut O) -> Result<(), WriteFault>
        requires { AllByRecursion (λ r. IsReportable r.taken) self.now.refused }
        ensures { WritesWhole result (O.known out.old) (O.known out.new) (refused_text self.now.refused) }
    {
        for refusal in &self.refused {
            write_refused(out, refusal.number, &refusal.taken)?;
        }
        Ok(())
    }

    /// Writes the last line.
    pub fn write_end<O: Sink>(&self, out: &mut O, word: EndWord) -> Result<(), WriteFault>
        ensures { WritesWhole result (O.known out.old) (O.known out.new) (end_line word self.now.sums) }
    {
        write_end(out, word, &self.sums)
    }
}
