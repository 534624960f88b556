//! A schedule's text, read.

ghost use Rattle.std.specs.Prelude.{◌≡◌, ◌<◌, ◌≤◌, length, IsUtf8, Err};
ghost use Rattle.text_lines.specs.Lines.{lines_of, bad_line_of};
ghost use Rattle.text_lines.specs.Texts.{longest_text};
ghost use Rattle.plan_rules.specs.Steps.{ReadsLines};
ghost use Rattle.drm_plan.specs.Text.{lines_give, draft_of};

use crate::draft::Draft;
use crate::projection::make_draft;
use drm_schedule::Reason;
use plan_rules::{PlanFault, fault_at_line, read_lines};
use std::alloc::Global;
use text_lines::{NoText, lines, readable};

fn read_text(alloc: Global, text: &str) -> Result<Draft, PlanFault>
    requires { length text.now ≤ longest_text }
    ensures { ReadsLines result (lines_give (lines_of text.now)) }
{
    let lines = lines(alloc, text)?;
    let read = read_lines(alloc, &lines)?;
    Ok(make_draft(alloc, read)?)
}

/// What the lines of a text give, or its first fault: a text of more than 262,144 bytes, then one that isn't UTF-8, then
/// the first line, in their order, that has a fault by itself or after the lines before it, and what is missing at the
/// end. Whether the schedule is valid isn't asked yet.
pub fn read_plan(alloc: Global, text: &[u8]) -> Result<Draft, PlanFault>
    ensures read { ReadsLines result (draft_of text.now) }
    // A text that is refused as a whole is refused without memory.
    ensures too_long { longest_text < length text.now → result ≡ Err (PlanFault.Line 0 Reason.TooLong) }
    ensures utf8 { length text.now ≤ longest_text → (IsUtf8 text.now → ⊥)
        → result ≡ Err (PlanFault.Line (bad_line_of text.now) Reason.Utf8) }
{
    match readable(text) {
        Ok(text) => read_text(alloc, text),
        Err(NoText::TooLong) => Err(fault_at_line(0, Reason::TooLong)),
        Err(NoText::Utf8 { line }) => Err(fault_at_line(line, Reason::Utf8)),
    }
}
