//! A script's text, read.

ghost use Rattle.std.specs.Prelude.{◌≡◌, ◌<◌, ◌≤◌, length, IsUtf8, Err, IfOk};
ghost use Rattle.text_lines.specs.Lines.{lines_of, bad_line_of};
ghost use Rattle.text_lines.specs.Texts.{longest_text};
ghost use Rattle.plan_script.specs.Script.{IsScript, script_of, script_of_text};
ghost use Rattle.plan_script.specs.Steps.{ReadsScript};

use crate::fault::{ScriptFault, fault_at_line};
use crate::rules::read_lines;
use crate::script::Script;
use drm_schedule::{Reason, Schedule};
use std::alloc::Global;
use text_lines::{NoText, lines, readable};

fn read_text(alloc: Global, text: &str, plan: &Schedule) -> Result<Script, ScriptFault>
    requires { length text.now ≤ longest_text }
    ensures read { ReadsScript result (script_of plan.now (lines_of text.now)) }
    ensures script { IfOk result (IsScript plan.now) }
{
    let lines = lines(alloc, text)?;
    read_lines(alloc, plan, &lines)
}

/// The feeds that the lines of a text give for this schedule, or its first fault: a text of more than 262,144 bytes, then
/// one that isn't UTF-8, then the first line, in their order, that has a fault by itself or after the lines before it, and
/// at the end a text without a feed.
pub fn read_script(alloc: Global, text: &[u8], plan: &Schedule) -> Result<Script, ScriptFault>
    ensures read { ReadsScript result (script_of_text plan.now text.now) }
    // A text that is refused as a whole is refused without memory.
    ensures too_long { longest_text < length text.now → result ≡ Err (ScriptFault.Line 0 Reason.TooLong) }
    ensures utf8 { length text.now ≤ longest_text → (IsUtf8 text.now → ⊥)
        → result ≡ Err (ScriptFault.Line (bad_line_of text.now) Reason.Utf8) }
    ensures script { IfOk result (IsScript plan.now) }
{
    match readable(text) {
        Ok(text) => read_text(alloc, text, plan),
        Err(NoText::TooLong) => Err(fault_at_line(0, Reason::TooLong)),
        Err(NoText::Utf8 { line }) => Err(fault_at_line(line, Reason::Utf8)),
    }
}
