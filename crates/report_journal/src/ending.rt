//! The whole report of a journal.

ghost use Rattle.std.specs.Prelude.{◌≡◌, ◌++◌, ◌↔◌, IsTrue, IfOk, OnErr, IsErr};
ghost use Rattle.std.specs.List.{AllByRecursion};
ghost use Rattle.report_text.specs.FaultWords.{IsReportable};
ghost use Rattle.report_text.specs.Report.{end_line};
ghost use Rattle.report_text.specs.Reports.{refused_text, Report};
ghost use Rattle.drm_links.specs.Known.{HasCause};
ghost use Rattle.drm_links.specs.Sink.{OutputsText, IsPrefix};

use drm_links::{Sink, WriteFault, write_all};
use report_text::{EndWord, ReportCounts};
use std::marker::Model;

/// The whole report of a journal: contracts see its text, and whether no line of it is missing or bad.
#[derive(Drop)]
pub struct Ending {
    // The first line, and those of the items.
    text: Vec<u8>,
    counts: ReportCounts,
    word: EndWord,
    clean: bool,
}

impl Model for Ending {
    ghost use Rattle.std.specs.Prelude.{◌++◌};
    ghost use Rattle.std.specs.List.{AllByRecursion};
    ghost use Rattle.report_text.specs.FaultWords.{IsReportable};
    ghost use Rattle.report_text.specs.Report.{end_line};
    ghost use Rattle.report_text.specs.Reports.{refused_text, Report};

    ghost Value = { Report };

    ghost view = { λ e. record {
      text = e.text.items ++ (refused_text e.counts.refused ++ end_line e.word e.counts.sums);
      clean = e.clean;
    } };

    ghost invariant = { λ e. AllByRecursion (λ r. IsReportable r.taken) e.counts.refused };
}

impl Ending {
    // The report of a text so far, of what is counted, and of why it ends.
    pub(crate) fn new(text: Vec<u8>, counts: ReportCounts, word: EndWord) -> Ending
        requires { AllByRecursion (λ r. IsReportable r.taken) counts.refused }
        ensures text { result.text ≡ text.items ++ (refused_text counts.refused ++ end_line word counts.sums) }
        ensures clean { IsTrue result.clean ↔ ((counts.sums.missing ≡ 0) × (counts.sums.bad ≡ 0)) }
    {
        let clean = counts.is_clean();
        Ending {
            text,
            counts,
            word,
            clean,
        }
    }

    /// Writes the report, and answers whether no line of it is missing or bad.
    pub fn write<O: Sink>(&self, out: &mut O) -> Result<bool, WriteFault>
        ensures whole { IfOk result (λ _. OutputsText (O.known out.old) (O.known out.new) (λ text. text ≡ self.now.text)) }
        ensures clean { IfOk result (λ clean. clean ≡ self.now.clean) }
        ensures front { OnErr result (OutputsText (O.known out.old) (O.known out.new) (IsPrefix self.now.text)) }
        ensures cause { HasCause (O.known out.old) (O.known out.new) (IsErr result) }
    {
        write_all(out, &self.text)?;
        self.counts.write_refused(out)?;
        self.counts.write_end(out, self.word)?;
        Ok(self.clean)
    }
}
